// The entry points for C: portal's, under the names that a linker finds. Each promises what portal's does.

#![tactic(auto)]

ghost use Rattle.std.specs.Prelude.{◌≡◌};
ghost use Rattle.judging.specs.Requests.{request_of};
ghost use Rattle.judging.specs.Judging.{judgement};
ghost use Rattle.portal.specs.Codes.{present_of, judgement_code};
ghost use Rattle.portal.specs.Answers.{Counts, Shows, ReadsJson};

/// May this request pass? Bit i of `present` says that the key with code i is there; higher bits, and the bytes or the number of an absent
/// key, are not looked at.
#[unsafe(no_mangle)]
pub extern "C" fn stamenhum_judge(
    table: &[u8],
    principal: &[u8],
    action: &[u8],
    resource: &[u8],
    present: u32,
    vpc: &[u8],
    prefix: &[u8],
    vpce: &[u8],
    referer: &[u8],
    address: u32,
) -> u64
    ensures { result ≡ judgement_code (judgement table.now (request_of principal.now action.now resource.now (present_of present) vpc.now prefix.now vpce.now referer.now address)) }
{
    portal::stamenhum_judge(
        table, principal, action, resource, present, vpc, prefix, vpce, referer, address,
    )
}

/// How many kinds of request does the first table allow and the second not?
#[unsafe(no_mangle)]
pub extern "C" fn stamenhum_gaps(first: &[u8], second: &[u8]) -> u64
    ensures { Counts first.now second.now result }
{
    portal::stamenhum_gaps(first, second)
}

/// What is gap k? Its values are laid down in the buffer as RULES 6.5 says.
#[unsafe(no_mangle)]
pub extern "C" fn stamenhum_gap(first: &[u8], second: &[u8], k: u64, values: &mut [u8]) -> u64
    ensures { Shows first.now second.now k values.old result values.new }
{
    portal::stamenhum_gap(first, second, k, values)
}

/// Which table does this policy in the public JSON form make? It is laid down from the first byte of the buffer on; a refusal leaves
/// the buffer as it was.
#[unsafe(no_mangle)]
pub extern "C" fn stamenhum_read_json(json: &[u8], table: &mut [u8]) -> u64
    ensures { ReadsJson json.now table.old result table.new }
{
    portal::stamenhum_read_json(json, table)
}
