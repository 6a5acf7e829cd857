// Records of any kind: a map, one field for each of its ones that has a field, and what they make.
ghost use Rattle.std.specs.Prelude.{◌≡◌, length, count_ones};
ghost use Rattle.fields.specs.Layouts.{LayoutOf, places_of, fields_of, numbers_of, record_of};
ghost use Rattle.fields.specs.Reading.{seen};

use crate::faults::{FaultKind, RecordFault};
use crate::fields::Number;
use supplied::MakeError;

// The numbers that the fields of a kind of record give.
pub trait Layout: Copy {
    type Made: Copy;

    ghost layout: { LayoutOf Self Self.Made };

    // The numbers of a record without fields. Not Default: each kind would owe a law that its default is these.
    fn absent() -> Self
        ensures { result ≡ layout.absent };

    // Whether each bit of the map is defined.
    fn is_defined(map: u8) -> bool
        ensures { result ≡ layout.defined map };

    // The bits of the map that stand for a field.
    fn field_bits(map: u8) -> u8
        ensures { result ≡ layout.field_bits map };

    // Reads the field of a bit of the map. The place is what `trailing_zeros` of the map gives, and each kind numbers its bits
    // in its own way, so that an enum would be made of the number by the same match.
    fn take_field(self, place: u32, bytes: &[u8]) -> Result<(Self, &[u8]), RecordFault>
        ensures { seen result ≡ layout.taken self place bytes.now };

    // What the numbers make, or the rule that they break.
    fn make(self, map: u8) -> Result<Self::Made, MakeError>
        ensures { result ≡ layout.made map self };
}

// The fields of the map's ones, in bit order.
#[tactic(auto, using(crate::proofs::Places::some_one, crate::proofs::Places::places_count, crate::proofs::FieldTurns::no_field, crate::proofs::FieldTurns::field_refused))]
fn read_fields<L: Layout>(map: u8, bytes: &[u8]) -> Result<(L, &[u8]), RecordFault>
    ensures fields { seen result ≡ fields_of L.Layout.layout.taken (places_of map) L.Layout.layout.absent bytes.now }
    ensures count { length (places_of map) ≡ count_ones map }
{
    let mut numbers = L::absent();
    let mut rest = bytes;
    let mut ahead = map;
    // It is a rule of the project that the number of the map's ones is the number of the fields.
    for _ in 0..map.count_ones() {
        (numbers, rest) = numbers.take_field(ahead.trailing_zeros(), rest)?;
        ahead &= ahead - 1;
    }
    Ok((numbers, rest))
}

// A map without an undefined bit, and the numbers of its fields.
fn read_numbers<L: Layout>(bytes: &[u8]) -> Result<((u8, L), &[u8]), RecordFault>
    ensures { seen result ≡ numbers_of L.Layout.layout bytes.now }
{
    let (map, rest) = u8::read(bytes)?;
    if !L::is_defined(map) {
        return Err(RecordFault::at(FaultKind::UndefinedBit, bytes));
    }
    let (numbers, rest) = read_fields::<L>(L::field_bits(map), rest)?;
    Ok(((map, numbers), rest))
}

// A record, and the bytes behind it, or the first fault.
pub fn read_record<L: Layout>(bytes: &[u8]) -> Result<(L::Made, &[u8]), RecordFault>
    ensures { seen result ≡ record_of L.Layout.layout bytes.now }
{
    let ((map, numbers), rest) = read_numbers::<L>(bytes)?;
    let broken = |cause| RecordFault::at(FaultKind::BrokenRule(cause), bytes);
    let made = numbers.make(map).map_err(broken)?;
    Ok((made, rest))
}
