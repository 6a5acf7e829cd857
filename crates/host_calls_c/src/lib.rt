// The exports for a host program in another language. A slice crosses as a pointer and then a length, an answer as one number.
// Each is the call of host_calls: a crate is a library for Rattle or a static library for C, and never both.
#![tactic(auto)]

ghost use Rattle.std.specs.Prelude.{◌≡◌};
ghost use Rattle.files.specs.Checked.{checked};
ghost use Rattle.files.specs.Compared.{files_compared};
ghost use Rattle.files.specs.Meant.{Meant};
ghost use Rattle.files.specs.Written.{written_answer, buffer_after};
ghost use Rattle.host_calls.specs.Answers.{compare_number, check_number};

// Compares two files of prefix ranges with route actions and writes the listing to the front of the buffer.
// The answer is the listing's length, or 65,536 plus the refusal's number, and then the buffer is as it was.
#[unsafe(no_mangle)]
pub extern "C" fn rowlist_compare(left: &[u8], right: &[u8], listing: &mut [u8]) -> u32
    ensures answer { result ≡ compare_number (written_answer listing.old (files_compared left.now right.now)) }
    ensures bytes { listing.new ≡ buffer_after listing.old (files_compared left.now right.now) }
    ensures meaning { Meant left.now right.now (files_compared left.now right.now) }
{
    host_calls::rowlist_compare(left, right, listing)
}

// Checks a file of any family: 0 if it is good, or 65,536 plus the number of its fault.
#[unsafe(no_mangle)]
pub extern "C" fn rowlist_check(file: &[u8]) -> u32
    ensures { result ≡ check_number (checked file.now) }
{
    host_calls::rowlist_check(file)
}
