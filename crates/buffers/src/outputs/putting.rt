// Bytes put into an output.
ghost use Rattle.std.specs.Prelude.{[], ◌∷◌};
ghost use Rattle.buffers.specs.Buffers.{Placed};
ghost use Rattle.buffers.specs.Outputs.{Puts};

use super::Output;

// Puts a byte at a place of the buffer, or nowhere behind its end: answers the next place.
fn put_byte(out: &mut [u8], at: usize, byte: u8) -> usize
    ensures { Placed out.old at (byte ∷ []) result out.new }
{
    // By its index: after `get_mut` of a slice a proof knows its length and no element.
    if at < out.len() {
        out[at] = byte;
    }
    at.saturating_add(1)
}

// Puts the bytes one behind the other, from a place on: answers the place behind them. The loop is over the slice and the
// place: over an output's own fields, which each byte would read and write again, a listing took a quarter more time.
fn put_text(out: &mut [u8], at: usize, text: &[u8]) -> usize
    ensures { Placed out.old at text.now result out.new }
{
    let mut end = at;
    for byte in text {
        end = put_byte(out, end, *byte);
    }
    end
}

impl<'a> Output<'a> {
    // Puts a byte at the output's place; behind the buffer's end it is lost.
    pub fn put_byte(&mut self, byte: u8)
        ensures { Puts self.old (byte ∷ []) self.new }
    {
        self.place = put_byte(self.bytes, self.place, byte);
    }

    // Puts the bytes one behind the other.
    pub fn put_bytes(&mut self, text: &[u8])
        ensures { Puts self.old text.now self.new }
    {
        self.place = put_text(self.bytes, self.place, text);
    }
}
