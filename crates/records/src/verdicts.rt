// The record of a verdict: a map with the accept bit alone.
ghost use Rattle.std.specs.Prelude.{◌≡◌};
ghost use Rattle.fields.specs.Layouts.{record_of};
ghost use Rattle.fields.specs.Reading.{seen};
ghost use Rattle.fields.specs.Sizes.{TookBytes};
ghost use Rattle.records.specs.Sizes.{action_size};
ghost use Rattle.records.specs.VerdictRecords.{verdict_layout, verdict_bytes, verdict_undoing};

use crate::recorded::{RecordedAction, WrittenAction};
use buffers::Output;
use fields::{Layout, RecordFault, read_record};
use supplied::{MakeError, Verdict};

// A verdict has no numbers.
#[derive(Clone, Copy)]
pub struct VerdictNumbers;

impl Layout for VerdictNumbers {
    type Made = Verdict;

    ghost layout = { verdict_layout };

    fn absent() -> VerdictNumbers {
        VerdictNumbers
    }

    fn is_defined(map: u8) -> bool {
        map < 2
    }

    // The accept bit has no field.
    fn field_bits(_map: u8) -> u8 {
        0
    }

    fn take_field(self, _place: u32, bytes: &[u8]) -> Result<(VerdictNumbers, &[u8]), RecordFault> {
        Ok((self, bytes))
    }

    // The file's format tells accept by a bit of the map.
    fn make(self, map: u8) -> Result<Verdict, MakeError> {
        if map % 2 == 0 {
            return Ok(Verdict::Reject);
        }
        Ok(Verdict::Accept)
    }
}

impl RecordedAction for Verdict {
    ghost reads = { record_of verdict_layout };

    // The clause on the count is this kind's own, since each kind's records have sizes of their own.
    #[tactic(auto, using(crate::proofs::KindSizes::verdict_took))]
    fn read(bytes: &[u8]) -> Result<(Verdict, &[u8]), RecordFault>
        ensures answer { seen result ≡ record_of verdict_layout bytes.now }
        ensures count { TookBytes action_size bytes.now (seen result) }
    {
        read_record::<VerdictNumbers>(bytes)
    }
}

impl WrittenAction for Verdict {
    ghost writes = { verdict_bytes };

    ghost fits = { λ v. Unit {0} };

    ghost undoing = { verdict_undoing };

    fn write(self, out: &mut Output) {
        out.put_byte(self as u8);
    }
}
