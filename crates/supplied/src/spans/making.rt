// Making a span or a number that it may hold, and reading their numbers.
ghost use Rattle.std.specs.Prelude.{◌≡◌};
ghost use Rattle.supplied.specs.MadeSpans.{made_span, made_point};

use super::{Span, SpanPoint};
use crate::errors::MakeError;

impl<const TOP: u32> Span<TOP> {
    pub fn new(low: u32, high: u32) -> Result<Span<TOP>, MakeError>
        ensures { result ≡ made_span TOP low high }
    {
        if low > high {
            return Err(MakeError::LowAboveHigh);
        }
        if high > TOP {
            return Err(MakeError::AboveTop);
        }
        Ok(Span { low, high })
    }

    pub fn low(self) -> u32
        ensures { result ≡ self.entry.low }
    {
        self.low
    }

    pub fn high(self) -> u32
        ensures { result ≡ self.entry.high }
    {
        self.high
    }
}

impl<const TOP: u32> SpanPoint<TOP> {
    pub fn new(value: u32) -> Result<SpanPoint<TOP>, MakeError>
        ensures { result ≡ made_point TOP value }
    {
        if value > TOP {
            return Err(MakeError::AboveTop);
        }
        Ok(SpanPoint { value })
    }

    pub fn value(self) -> u32
        ensures { result ≡ self.entry.value }
    {
        self.value
    }
}
