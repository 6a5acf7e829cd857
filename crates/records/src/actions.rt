// The record of a route action: reject, or accept with numbers that may be absent.
ghost use Rattle.std.specs.Prelude.{◌≡◌};
ghost use Rattle.buffers.specs.Outputs.{Puts};
ghost use Rattle.records.specs.ActionRecords.{action_layout, NumberFits, number_bit, number_bytes, ActionFits, action_bytes};
ghost use Rattle.records.specs.ActionUndoing.{action_undoing};
ghost use Rattle.fields.specs.Layouts.{record_of};
ghost use Rattle.fields.specs.Reading.{seen};
ghost use Rattle.fields.specs.Sizes.{TookBytes};
ghost use Rattle.records.specs.Sizes.{action_size};

use crate::recorded::{RecordedAction, WrittenAction};
use buffers::Output;
use fields::{Layout, Number, RecordFault, read_record};
use supplied::{MakeError, RouteAction};

#[derive(Clone, Copy)]
pub struct ActionNumbers {
    pub preference: Option<u32>,
    pub med: Option<u32>,
}

impl Layout for ActionNumbers {
    type Made = RouteAction;

    ghost layout = { action_layout };

    fn absent() -> ActionNumbers {
        ActionNumbers {
            preference: None,
            med: None,
        }
    }

    // The accept bit, and only with it the two numbers.
    fn is_defined(map: u8) -> bool {
        map == 0 || map < 8 && map % 2 == 1
    }

    // The accept bit has no field.
    fn field_bits(map: u8) -> u8 {
        map - map % 2
    }

    fn take_field(self, place: u32, bytes: &[u8]) -> Result<(ActionNumbers, &[u8]), RecordFault> {
        let (number, rest) = u32::read(bytes)?;
        let numbers = if place == 1 {
            ActionNumbers {
                preference: Some(number),
                ..self
            }
        } else {
            ActionNumbers {
                med: Some(number),
                ..self
            }
        };
        Ok((numbers, rest))
    }

    // The file's format tells accept by a bit of the map, and only with it the numbers count.
    fn make(self, map: u8) -> Result<RouteAction, MakeError> {
        if map % 2 == 0 {
            return Ok(RouteAction::Reject);
        }
        let ActionNumbers { preference, med } = self;
        Ok(RouteAction::Accept { preference, med })
    }
}

// The bit of a map for a number that may be absent. Not given_bit: here no number stands for what is absent.
fn number_bit(number: Option<u32>) -> u8
    ensures { result ≡ number_bit number }
{
    u8::from(number.is_some())
}

// Puts a number in four bytes, or nothing where it is absent.
fn put_number(number: Option<u32>, out: &mut Output)
    ensures bytes { Puts out.old (number_bytes number) out.new }
    ensures numbers { NumberFits number }
{
    if let Some(value) = number {
        value.put(out);
    }
}

impl RecordedAction for RouteAction {
    ghost reads = { record_of action_layout };

    // The clause on the count is this kind's own, since each kind's records have sizes of their own.
    #[tactic(auto, using(crate::proofs::KindSizes::action_took))]
    fn read(bytes: &[u8]) -> Result<(RouteAction, &[u8]), RecordFault>
        ensures answer { seen result ≡ record_of action_layout bytes.now }
        ensures count { TookBytes action_size bytes.now (seen result) }
    {
        read_record::<ActionNumbers>(bytes)
    }
}

impl WrittenAction for RouteAction {
    ghost writes = { action_bytes };

    ghost fits = { ActionFits };

    ghost undoing = { action_undoing };

    fn write(self, out: &mut Output) {
        match self {
            RouteAction::Reject => out.put_byte(0),
            RouteAction::Accept { preference, med } => {
                out.put_byte(1 + 2 * number_bit(preference) + 4 * number_bit(med));
                put_number(preference, out);
                put_number(med, out);
            }
        }
    }
}
