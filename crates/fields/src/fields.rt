// The fields of a record: a number read from its bytes, highest byte first, and written to them.
ghost use Rattle.std.specs.Prelude.{◌≡◌, ℕ, ◌==◌, refl};
ghost use Rattle.buffers.specs.Outputs.{Puts};
ghost use Rattle.fields.specs.Fields.{field_of, given_of, bytes_of, given_bytes, given_bit};
ghost use Rattle.fields.specs.Reading.{seen_as};

use crate::faults::{FaultKind, RecordFault};
use buffers::Output;

// A number that a field holds.
pub trait Number: Copy + PartialEq {
    // How many bytes its field has.
    ghost width: { ℕ };

    ghost value: { Self → ℕ };

    // The number at the front of some bytes, and the bytes behind it.
    fn read(bytes: &[u8]) -> Result<(Self, &[u8]), RecordFault>
        ensures { seen_as value result ≡ field_of width bytes.now };

    // Puts the number's bytes at the output's place.
    fn put(self, out: &mut Output)
        ensures { Puts out.old (bytes_of width (value self)) out.new };

    // Numbers are equal by their values.
    ghost by_value: { (a b : Self) → Self.eq a b ≡ (value a == value b) };
}

// Each reader takes a field's bytes and the rest by a slice pattern of its own; the three impls stay apart, since no macro
// may write one.
impl Number for u8 {
    ghost width = { 1 };

    ghost value = { λ n. n };

    ghost by_value = { λ a b. refl };

    fn read(bytes: &[u8]) -> Result<(u8, &[u8]), RecordFault> {
        let [value, rest @ ..] = bytes else {
            return Err(RecordFault::short());
        };
        Ok((*value, rest))
    }

    fn put(self, out: &mut Output) {
        out.put_byte(self);
    }
}

impl Number for u16 {
    ghost width = { 2 };

    ghost value = { λ n. n };

    ghost by_value = { λ a b. refl };

    fn read(bytes: &[u8]) -> Result<(u16, &[u8]), RecordFault> {
        let [a, b, rest @ ..] = bytes else {
            return Err(RecordFault::short());
        };
        Ok((u16::from_be_bytes([*a, *b]), rest))
    }

    fn put(self, out: &mut Output) {
        out.put_bytes(&u16::to_be_bytes(self));
    }
}

impl Number for u32 {
    ghost width = { 4 };

    ghost value = { λ n. n };

    ghost by_value = { λ a b. refl };

    fn read(bytes: &[u8]) -> Result<(u32, &[u8]), RecordFault> {
        let [a, b, c, d, rest @ ..] = bytes else {
            return Err(RecordFault::short());
        };
        Ok((u32::from_be_bytes([*a, *b, *c, *d]), rest))
    }

    fn put(self, out: &mut Output) {
        out.put_bytes(&u32::to_be_bytes(self));
    }
}

// A field that must not equal its absent value.
pub fn given<N: Number>(bytes: &[u8], absent: N) -> Result<(N, &[u8]), RecordFault>
    ensures { seen_as N.value result ≡ given_of N.width (N.value absent) bytes.now }
{
    let (number, rest) = N::read(bytes)?;
    if number == absent {
        return Err(RecordFault::at(FaultKind::AbsentValue, bytes));
    }
    Ok((number, rest))
}

// Puts a field, or no bytes where it equals its absent value.
pub fn put_given<N: Number>(number: N, absent: N, out: &mut Output)
    ensures { Puts out.old (given_bytes N.width (N.value absent) (N.value number)) out.new }
{
    if number != absent {
        number.put(out);
    }
}

// The bit of a map for a field: whether the field is written.
pub fn given_bit<N: Number>(number: N, absent: N) -> u8
    ensures { result ≡ given_bit (N.value absent) (N.value number) }
{
    u8::from(number != absent)
}
