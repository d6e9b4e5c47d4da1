// The lines marked P of the bench list, run. They are also proved together (`bench-matches` of judging).
ghost use Rattle.std.specs.Prelude.{◌≤◌, length};

use judging::judge::{Verdict, judge};
use judging::request::Request;
use matching::network::in_network;
use matching::reading::Reading;
use matching::value::value_matches;
use pairs::print::print_address;

fn print_quoted(bytes: &[u8]) {
    io::write_all(1, b"`");
    io::write_all(1, bytes);
    io::write_all(1, b"`");
}

// One value, read as a resource or StringLike reads it, against one string.
fn run_value(value: &[u8], string: &[u8])
    requires { length value.now ≤ 511 }
{
    print_quoted(value);
    if value_matches(value, Reading::Plain, string) {
        io::write_all(1, b" takes ");
    } else {
        io::write_all(1, b" refuses ");
    }
    print_quoted(string);
    io::write_all(1, b"\n");
}

// One network against one address.
fn run_network(network: u32, length: u8, address: u32) {
    print_address(network);
    io::write_all(1, b"/");
    io::print_decimal(1, length as u64);
    if in_network(address, network, length) {
        io::write_all(1, b" holds for ");
    } else {
        io::write_all(1, b" does not hold for ");
    }
    print_address(address);
    io::write_all(1, b"\n");
}

// Whether the only condition of a table that allows all else holds for an absent address: a request without any key is judged.
fn run_absent(name: &[u8], table: &[u8]) {
    let request = Request {
        principal: b"p",
        action: b"a",
        resource: b"r",
        vpc: None,
        prefix: None,
        vpce: None,
        referer: None,
        address: None,
    };
    io::write_all(1, name);
    match judge(table, request) {
        Ok(Verdict::Allowed) => {
            io::write_all(1, b" with an absent address is true\n");
        }
        Ok(Verdict::NotMentioned) => {
            io::write_all(1, b" with an absent address is false\n");
        }
        Ok(Verdict::DeniedByRule) => {
            io::write_all(1, b" denies\n");
        }
        Err(_) => {
            io::write_all(1, b" is refused\n");
        }
    }
}

fn run_values() {
    io::write_all(1, b"\n- P: `s*s*s*s` refuses `ss` (001), takes `ssss`.\n");
    run_value(b"s*s*s*s", b"ss");
    run_value(b"s*s*s*s", b"ssss");
    io::write_all(1, b"\n- P: `*` takes the empty string, `?*` does not.\n");
    run_value(b"*", b"");
    run_value(b"?*", b"");
    io::write_all(1, b"\n- P: `a?c` takes `abc`; `?` refuses `ab`.\n");
    run_value(b"a?c", b"abc");
    run_value(b"?", b"ab");
    io::write_all(1, b"\n- P: on `abbb`, `a*b*b*b` yes, `ab*b*b*b` no.\n");
    run_value(b"a*b*b*b", b"abbb");
    run_value(b"ab*b*b*b", b"abbb");
}

// The tables allow everyone everything from 11.22.33.0/24 (hex 0B162100, 18), by IpAddress (05) and by its IfExists form (15).
fn run_addresses() {
    io::write_all(
        1,
        b"\n- P: 11.22.33.0/24 holds for 11.22.33.255, not for 11.22.34.0.\n",
    );
    run_network(0x0B162100, 24, 0x0B1621FF);
    run_network(0x0B162100, 24, 0x0B162200);
    io::write_all(
        1,
        b"\n- P: IpAddress with an absent address is false, its IfExists form true.\n",
    );
    run_absent(
        b"IpAddress",
        b"\x01\x01\x02\x01\x03\x00@*\x03\x01@*\x03\x02@*\x04\x05\x04\x06\x0B\x16\x21\x00\x18\x05",
    );
    run_absent(
        b"IpAddressIfExists",
        b"\x01\x01\x02\x01\x03\x00@*\x03\x01@*\x03\x02@*\x04\x15\x04\x06\x0B\x16\x21\x00\x18\x05",
    );
}

pub(crate) fn run_marked() {
    io::write_all(
        1,
        b"The bench list (docs/RULES.md, 10), and what came out.\n",
    );
    run_values();
    run_addresses();
}
