// The text that is printed for two files.
ghost use Rattle.std.specs.Prelude.{◌≡◌, IfOk};
ghost use Rattle.files.specs.Compared.{files_compared};
ghost use Rattle.files.specs.Meant.{Meant};
ghost use Rattle.files.specs.Printed.{printed_text};

use crate::comparing::{HOLE_PLACES, Memory, REGION_PLACES, ROW_PLACES};
use buffers::text_in_memory;
use compare::Row;
use family::Family;
use listing::Declined;
use std::alloc::{AllocError, Global};
use supplied::PrefixRange;

// What is printed for two files: the listing, or the line of what was declined first.
pub fn printed(alloc: Global, left: &[u8], right: &[u8]) -> Result<Vec<u8>, AllocError>
    ensures text { IfOk result (λ v. v.items ≡ printed_text left.now right.now) }
    ensures meaning { Meant left.now right.now (files_compared left.now right.now) }
{
    let mut memory = Memory {
        regions: [PrefixRange::whole_region(); REGION_PLACES],
        rows: [Row::default(); ROW_PLACES],
        holes: [0; HOLE_PLACES],
    };
    match memory.compare_files(left, right) {
        Ok(listing) => text_in_memory(alloc, &listing),
        Err(refusal) => text_in_memory(alloc, &Declined::from(refusal)),
    }
}
