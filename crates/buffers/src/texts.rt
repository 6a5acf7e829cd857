// Values that have a text, and the text whole: measured, written to a lent buffer, or in memory of its own.
ghost use Rattle.std.specs.Prelude.{◌≡◌, ℕ, List, length, IfOk};
ghost use Rattle.buffers.specs.Buffers.{Placed, capped, written, written_length};
ghost use Rattle.buffers.specs.Outputs.{Puts};

use crate::outputs::Output;
use std::alloc::{AllocError, Global};

// A value that has a text. Not Display: the clause of an impl Display speaks of Ok alone, and a body that only fails
// would meet it.
pub trait Text {
    ghost text: { Self → List ℕ };

    // What putting a value tells of it beside its text; mostly nothing.
    ghost told: { Self → Type 0 } = { λ _. Unit {0} };

    // Puts the text at the output's place.
    fn put(&self, out: &mut Output)
        ensures bytes { Puts out.old (text self.now) out.new }
        ensures facts { told self.now };
}

// Puts the text to the front of the buffer, as far as it has places, and answers how many bytes were put.
fn put_whole<T: Text>(value: &T, out: &mut [u8]) -> usize
    ensures bytes { Placed out.old 0 (T.text value.now) result out.new }
    ensures facts { T.told value.now }
{
    let mut output = Output::new(out);
    value.put(&mut output);
    output.len()
}

// The text's length, or the largest number where it is longer.
pub fn text_length<T: Text>(value: &T) -> usize
    ensures length { result ≡ capped (length (T.text value.now)) }
    ensures facts { T.told value.now }
{
    put_whole(value, &mut [])
}

// Writes the text to the front of the buffer and answers its length; a buffer that is too short is left as it is.
pub fn write_text<T: Text>(value: &T, out: &mut [u8]) -> Option<usize>
    ensures answer { result ≡ written_length out.old (T.text value.now) }
    ensures bytes { out.new ≡ written out.old (T.text value.now) }
    ensures facts { T.told value.now }
{
    if text_length(value) > out.len() {
        return None;
    }
    Some(put_whole(value, out))
}

// The text in memory of its own.
pub fn text_in_memory<T: Text>(alloc: Global, value: &T) -> Result<Vec<u8>, AllocError>
    ensures { IfOk result (λ bytes. bytes.items ≡ T.text value.now) }
{
    let mut bytes = vec![in alloc; 0; text_length(value)]?;
    put_whole(value, &mut bytes);
    Ok(bytes)
}
