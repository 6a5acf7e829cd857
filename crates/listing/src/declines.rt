// The line that is printed where a load or the comparison is declined.
ghost use Rattle.buffers.specs.Outputs.{Puts};
ghost use Rattle.listing.specs.Declines.{declined_text, fault_text};

use crate::numbers::put_number;
use crate::octets::put_octet;
use buffers::{Output, Text};

// What was declined: the load of a side, with the refusal's number and the place of the fault, or the comparison.
// By number, and not by the fault: the line of any number can be printed, also of one that no fault of these crates has.
// The two sides are two cases, as they are of declined_text.
#[derive(Clone, Copy)]
pub enum Declined {
    Left { number: u8, place: usize },
    Right { number: u8, place: usize },
    Comparison { number: u8 },
}

fn put_fault(out: &mut Output, number: u8, place: usize)
    ensures { Puts out.old (fault_text number place) out.new }
{
    put_octet(out, number);
    out.put_byte(b' ');
    put_number(out, place);
    out.put_byte(b'\n');
}

impl Text for Declined {
    ghost text = { declined_text };

    fn put(&self, out: &mut Output) {
        match *self {
            Declined::Left { number, place } => {
                out.put_bytes(b"left ");
                put_fault(out, number, place);
            }
            Declined::Right { number, place } => {
                out.put_bytes(b"right ");
                put_fault(out, number, place);
            }
            Declined::Comparison { number } => {
                out.put_bytes(b"compare ");
                put_octet(out, number);
                out.put_byte(b'\n');
            }
        }
    }
}
