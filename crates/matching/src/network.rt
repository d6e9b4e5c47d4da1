// Networks as ranges of addresses.
ghost use Rattle.std.specs.Prelude.{◌≡◌};
ghost use Rattle.matching.specs.Network.{agree, network_size};
ghost use Rattle.matching.specs.Machinery.Ranges.{network_low, network_high};

// The number of addresses of a network.
fn network_size(length: u8) -> u64
    ensures { result ≡ network_size length }
{
    1u64 << 32u8.saturating_sub(length)
}

// The lowest address of a network.
fn network_low(network: u32, length: u8) -> u32
    ensures { result ≡ network_low network length }
{
    let size = network_size(length);
    (u64::from(network) / size * size) as u32
}

// The highest address of a network.
fn network_high(network: u32, length: u8) -> u32
    ensures { result ≡ network_high network length }
{
    let size = network_size(length);
    let low = network_low(network, length);
    (u64::from(low) + (size - 1)) as u32
}

/// Whether network and address agree in the first length bits.
pub fn in_network(address: u32, network: u32, length: u8) -> bool
    ensures { result ≡ agree network address length }
{
    (network_low(network, length)..=network_high(network, length)).contains(&address)
}
