// The record of a span: its low end and its high end.
ghost use Rattle.std.specs.Prelude.{◌≡◌, refl};
ghost use Rattle.supplied.specs.Spans.{span_holds};
ghost use Rattle.supplied.specs.declared.spans.SpanPoint.{SpanPoint};
ghost use Rattle.fields.specs.Layouts.{record_of};
ghost use Rattle.fields.specs.Reading.{seen, outcome_of, held_in};
ghost use Rattle.fields.specs.Sizes.{TookBytes};
ghost use Rattle.records.specs.Sizes.{span_size};
ghost use Rattle.records.specs.SpanRecords.{span_width, span_layout, span_bytes, SpanFits};
ghost use Rattle.records.specs.SpanUndoing.{span_undoing};

use crate::recorded::{Recorded, Written};
use buffers::Output;
use fields::{Layout, Number, RecordFault, given, given_bit, put_given, read_record};
use supplied::{MakeError, Span, SpanPoint};

// An end, which has as many bytes as its top: one, two or four. The top is a const, by which no type of a number can be
// picked, so that reading and putting decide by it.
#[derive(Clone, Copy, PartialEq)]
pub struct End<const TOP: u32>(pub u32);

impl<const TOP: u32> Number for End<TOP> {
    ghost width = { span_width TOP };

    ghost value = { λ end. end.0 };

    ghost by_value = { λ a b. refl };

    fn read(bytes: &[u8]) -> Result<(End<TOP>, &[u8]), RecordFault> {
        if TOP < 256 {
            let (byte, rest) = u8::read(bytes)?;
            return Ok((End(u32::from(byte)), rest));
        }
        if TOP < 65_536 {
            let (number, rest) = u16::read(bytes)?;
            return Ok((End(u32::from(number)), rest));
        }
        let (word, rest) = u32::read(bytes)?;
        Ok((End(word), rest))
    }

    // Cut to the width: an End may hold any number, and bytes_of cuts one that its width does not hold.
    fn put(self, out: &mut Output) {
        if TOP < 256 {
            ((self.0 % 256) as u8).put(out);
        } else if TOP < 65_536 {
            ((self.0 % 65_536) as u16).put(out);
        } else {
            self.0.put(out);
        }
    }
}

// The ends so far: one not yet read stands at its absent value.
#[derive(Clone, Copy)]
pub struct SpanNumbers<const TOP: u32> {
    pub low: End<TOP>,
    pub high: End<TOP>,
}

impl<const TOP: u32> Layout for SpanNumbers<TOP> {
    type Made = Span<TOP>;

    ghost layout = { span_layout TOP };

    fn absent() -> SpanNumbers<TOP> {
        SpanNumbers {
            low: End(0),
            high: End(TOP),
        }
    }

    fn is_defined(map: u8) -> bool {
        map < 4
    }

    fn field_bits(map: u8) -> u8 {
        map
    }

    fn take_field(
        self,
        place: u32,
        bytes: &[u8],
    ) -> Result<(SpanNumbers<TOP>, &[u8]), RecordFault> {
        if place == 0 {
            let (low, rest) = given(bytes, self.low)?;
            return Ok((SpanNumbers { low, ..self }, rest));
        }
        let (high, rest) = given(bytes, self.high)?;
        Ok((SpanNumbers { high, ..self }, rest))
    }

    fn make(self, _map: u8) -> Result<Span<TOP>, MakeError> {
        Span::new(self.low.0, self.high.0)
    }
}

impl<const TOP: u32> Recorded for Span<TOP> {
    ghost reads = { record_of (span_layout TOP) };

    // The clause on the count is this kind's own, since each kind's records have sizes of their own.
    #[tactic(auto, using(crate::proofs::KindSizes::span_took))]
    fn read(bytes: &[u8]) -> Result<(Span<TOP>, &[u8]), RecordFault>
        ensures answer { seen result ≡ record_of (span_layout TOP) bytes.now }
        ensures meaning { (point : SpanPoint TOP) → held_in (span_holds TOP) (outcome_of (seen result)) point ≡ held_in (span_holds TOP) (outcome_of (record_of (span_layout TOP) bytes.now)) point }
        ensures count { TookBytes (span_size TOP) bytes.now (seen result) }
    {
        read_record::<SpanNumbers<TOP>>(bytes)
    }
}

impl<const TOP: u32> Written for Span<TOP> {
    ghost writes = { span_bytes TOP };

    ghost fits = { SpanFits TOP };

    ghost undoing = { span_undoing TOP };

    fn write(self, out: &mut Output) {
        let absent: SpanNumbers<TOP> = SpanNumbers::absent();
        let low = End(self.low());
        let high = End(self.high());
        out.put_byte(given_bit(low, absent.low) + 2 * given_bit(high, absent.high));
        put_given(low, absent.low, out);
        put_given(high, absent.high, out);
    }
}
