// The listing of two files, written to a lent buffer.
ghost use Rattle.std.specs.Prelude.{◌≡◌};
ghost use Rattle.files.specs.Compared.{files_compared};
ghost use Rattle.files.specs.Meant.{Meant};
ghost use Rattle.files.specs.Written.{written_answer, buffer_after};

use crate::comparing::{HOLE_PLACES, Memory, REGION_PLACES, ROW_PLACES};
use crate::refusals::Unwritten;
use buffers::write_text;
use compare::Row;
use family::Family;
use supplied::PrefixRange;

// No listing that is written has more bytes.
const LONGEST: usize = 65_535;

// Writes the listing of two files to the front of the buffer and answers its length.
// Where it is refused or too long, the buffer is left as it is.
pub fn write_compared(left: &[u8], right: &[u8], out: &mut [u8]) -> Result<usize, Unwritten>
    ensures answer { result ≡ written_answer out.old (files_compared left.now right.now) }
    ensures bytes { out.new ≡ buffer_after out.old (files_compared left.now right.now) }
    ensures meaning { Meant left.now right.now (files_compared left.now right.now) }
{
    let mut memory = Memory {
        regions: [PrefixRange::whole_region(); REGION_PLACES],
        rows: [Row::default(); ROW_PLACES],
        holes: [0; HOLE_PLACES],
    };
    let listing = memory.compare_files(left, right)?;
    let room = out.len().min(LONGEST);
    let written = write_text(&listing, &mut out[..room]);
    written.ok_or(Unwritten::TooLong)
}
