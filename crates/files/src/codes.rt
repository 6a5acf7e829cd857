// The family codes that files begin with. A rule of the format: a code is a number in a file's first byte.

// Prefix ranges, with route actions.
pub(crate) const PREFIX_RANGES: u8 = 1;

// Prefix ranges with an origin AS, with route actions.
pub(crate) const ROUTES_WITH_ORIGIN: u8 = 2;

// Packets, with verdicts.
pub(crate) const PACKETS: u8 = 3;
