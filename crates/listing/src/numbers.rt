// A number in decimal. Digit by digit, and not by its Display: that promises the text where it answers Ok, and not that it
// answers Ok, and here the text must be put.
ghost use Rattle.std.specs.Prelude.{decimal};
ghost use Rattle.buffers.specs.Outputs.{Puts};

use buffers::Output;

pub(crate) fn put_number(out: &mut Output, number: usize)
    ensures { Puts out.old (decimal number) out.new }
{
    if number < 10 {
        return out.put_byte(b'0' + number as u8);
    }
    put_number(out, number / 10);
    out.put_byte(b'0' + (number % 10) as u8);
}
