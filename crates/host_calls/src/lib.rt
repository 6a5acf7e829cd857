// The calls for a host program in another language, which host_calls_c exports: an answer is one number.
// They stand in two crates, since a crate is a library for Rattle or a static library for C.
#![tactic(auto)]

ghost use Rattle.std.specs.Prelude.{◌≡◌};
ghost use Rattle.files.specs.Checked.{checked};
ghost use Rattle.files.specs.Compared.{files_compared};
ghost use Rattle.files.specs.Meant.{Meant};
ghost use Rattle.files.specs.Written.{written_answer, buffer_after};
ghost use Rattle.host_calls.specs.Answers.{compare_number, check_number};

use files::{check, write_compared};

// Added to the number of a refusal, so that no refusal is taken for a length.
const REFUSED: u32 = 65_536;

// Compares two files of prefix ranges with route actions and writes the listing to the front of the buffer.
// The answer is the listing's length, or 65,536 plus the refusal's number, and then the buffer is as it was.
pub fn rowlist_compare(left: &[u8], right: &[u8], listing: &mut [u8]) -> u32
    ensures answer { result ≡ compare_number (written_answer listing.old (files_compared left.now right.now)) }
    ensures bytes { listing.new ≡ buffer_after listing.old (files_compared left.now right.now) }
    ensures meaning { Meant left.now right.now (files_compared left.now right.now) }
{
    match write_compared(left, right, listing) {
        Ok(length) => length as u32,
        Err(unwritten) => REFUSED + u32::from(unwritten.number()),
    }
}

// Checks a file of any family: 0 if it is good, or 65,536 plus the number of its fault.
pub fn rowlist_check(file: &[u8]) -> u32
    ensures { result ≡ check_number (checked file.now) }
{
    match check(file) {
        Ok(()) => 0,
        Err(fault) => REFUSED + u32::from(fault.number()),
    }
}
