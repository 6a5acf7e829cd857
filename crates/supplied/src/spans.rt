// A span: the numbers between two ends, both counted, none above the top of its kind.
ghost use Rattle.std.specs.Prelude.{◌≤◌};

mod making;
mod questions;

#[derive(Clone, Copy, PartialEq, Eq, Debug)]
pub struct Span<const TOP: u32> {
    low: u32,
    high: u32,
    ghost order: { low ≤ high },
    ghost top: { high ≤ TOP },
}

// A number of a kind, which its spans may hold.
#[derive(Clone, Copy, PartialEq, Eq, Debug)]
pub struct SpanPoint<const TOP: u32> {
    value: u32,
    ghost top: { value ≤ TOP },
}

pub type ProtocolSpan = Span<255>;

pub type PortSpan = Span<65535>;

pub type AsSpan = Span<4294967295>;

pub type AddressSpan = Span<4294967295>;
