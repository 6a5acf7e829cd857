// A row as a line: left place, right place, region, and each hole after a hyphen.
ghost use Rattle.std.specs.Prelude.{◌++◌};
ghost use Rattle.buffers.specs.Outputs.{Puts};
ghost use Rattle.listing.specs.Regions.{numbered_text};
ghost use Rattle.listing.specs.Listings.{place_text, row_text};

use crate::listings::Listing;
use crate::numbers::put_number;
use crate::regions::put_region;
use buffers::Output;
use compare::Row;

// The place behind the clauses is the default's, a rule of the project.
fn put_place(out: &mut Output, clauses: usize, place: usize)
    ensures { Puts out.old (place_text clauses place) out.new }
{
    if place == clauses {
        out.put_byte(b'd');
    } else {
        put_number(out, place);
    }
}

impl Listing<'_> {
    // Puts the bytes, then the region of this number; nothing behind the bytes where the list has no such region.
    fn put_numbered(&self, out: &mut Output, before: &[u8], number: usize)
        ensures { Puts out.old (before.now ++ numbered_text self.now.regions.now number) out.new }
    {
        out.put_bytes(before);
        if let Some(region) = self.regions.get(number) {
            put_region(out, *region);
        }
    }

    // The row has the holes that the list has of it.
    pub(crate) fn put_row(&self, out: &mut Output, row: Row)
        ensures { Puts out.old (row_text self.now.regions.now self.now.holes.now self.now.left_clauses self.now.right_clauses row) out.new }
    {
        put_place(out, self.left_clauses, row.left);
        out.put_byte(b' ');
        put_place(out, self.right_clauses, row.right);
        self.put_numbered(out, b" ", row.region);
        let holes = self.holes.get(row.start..).unwrap_or_default();
        for hole in holes.iter().take(row.number) {
            self.put_numbered(out, b" - ", *hole);
        }
        out.put_byte(b'\n');
    }
}
