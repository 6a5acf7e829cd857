// The record of a prefix range: its address and its three lengths.
ghost use Rattle.std.specs.Prelude.{◌≡◌};
ghost use Rattle.supplied.specs.PrefixRanges.{prefix_holds};
ghost use Rattle.fields.specs.Layouts.{record_of};
ghost use Rattle.records.specs.RangeRecords.{range_layout, range_map, range_bytes};
ghost use Rattle.records.specs.RangeUndoing.{range_undoing};
ghost use Rattle.fields.specs.Reading.{seen, outcome_of, held_in};
ghost use Rattle.fields.specs.Sizes.{TookBytes};
ghost use Rattle.records.specs.Sizes.{range_size};

use crate::recorded::{Recorded, Written};
use buffers::Output;
use fields::{Layout, RecordFault, given, given_bit, put_given, read_record};
use supplied::{MakeError, PrefixRange, Route};

// The numbers so far: a field not yet read stands at its absent value.
#[derive(Clone, Copy)]
pub struct RangeNumbers {
    pub address: u32,
    pub length: u8,
    pub low: u8,
    pub high: u8,
}

impl Layout for RangeNumbers {
    type Made = PrefixRange;

    ghost layout = { range_layout };

    fn absent() -> RangeNumbers {
        RangeNumbers {
            address: 0,
            length: 0,
            low: 0,
            high: 0,
        }
    }

    fn is_defined(map: u8) -> bool {
        map < 16
    }

    fn field_bits(map: u8) -> u8 {
        map
    }

    fn take_field(self, place: u32, bytes: &[u8]) -> Result<(RangeNumbers, &[u8]), RecordFault> {
        match place {
            0 => {
                let (address, rest) = given(bytes, self.address)?;
                Ok((RangeNumbers { address, ..self }, rest))
            }
            1 => {
                let (length, rest) = given(bytes, self.length)?;
                Ok((
                    RangeNumbers {
                        length,
                        low: length,
                        high: length,
                        ..self
                    },
                    rest,
                ))
            }
            2 => {
                let (low, rest) = given(bytes, self.low)?;
                Ok((
                    RangeNumbers {
                        low,
                        high: low,
                        ..self
                    },
                    rest,
                ))
            }
            _ => {
                let (high, rest) = given(bytes, self.high)?;
                Ok((RangeNumbers { high, ..self }, rest))
            }
        }
    }

    fn make(self, _map: u8) -> Result<PrefixRange, MakeError> {
        PrefixRange::new(self.address, self.length, self.low, self.high)
    }
}

// The map of a prefix range: a bit for each field that differs from its absent value.
fn map_of(range: PrefixRange) -> u8
    ensures { result ≡ range_map range }
{
    given_bit(range.address(), 0)
        + 2 * given_bit(range.length(), 0)
        + 4 * given_bit(range.low(), range.length())
        + 8 * given_bit(range.high(), range.low())
}

impl Recorded for PrefixRange {
    ghost reads = { record_of range_layout };

    // The clause on the count is this kind's own, since each kind's records have sizes of their own.
    #[tactic(auto, using(crate::proofs::KindSizes::range_took))]
    fn read(bytes: &[u8]) -> Result<(PrefixRange, &[u8]), RecordFault>
        ensures answer { seen result ≡ record_of range_layout bytes.now }
        ensures meaning { (point : Route) → held_in prefix_holds (outcome_of (seen result)) point ≡ held_in prefix_holds (outcome_of (record_of range_layout bytes.now)) point }
        ensures count { TookBytes range_size bytes.now (seen result) }
    {
        read_record::<RangeNumbers>(bytes)
    }
}

impl Written for PrefixRange {
    ghost writes = { range_bytes };

    ghost fits = { λ r. Unit {0} };

    ghost undoing = { range_undoing };

    fn write(self, out: &mut Output) {
        out.put_byte(map_of(self));
        put_given(self.address(), 0, out);
        put_given(self.length(), 0, out);
        put_given(self.low(), self.length(), out);
        put_given(self.high(), self.low(), out);
    }
}
