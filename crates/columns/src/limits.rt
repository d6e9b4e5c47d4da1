// The numbers of column 7.

/// The column of addresses.
pub const ADDRESSES: usize = 7;

/// One past the highest address.
// stays: no plainer as an Option: a network that holds the highest address ends here too, and this end is compared like any other.
pub const NO_ADDRESS: u64 = 0x100000000;
