// The listing of a comparison: the number of its rows, then a line for each row.
// What is printed is a buffers::Text and has no std Display: the clause of an impl Display speaks of Ok alone,
// so a body that only fails would meet it.
ghost use Rattle.listing.specs.Listings.{listing};

use crate::numbers::put_number;
use buffers::{Output, Text};
use compare::Row;
use supplied::PrefixRange;

// What a comparison wrote, and how many clauses each side has.
#[derive(Clone, Copy)]
pub struct Listing<'a> {
    pub regions: &'a [PrefixRange],
    pub rows: &'a [Row],
    pub holes: &'a [usize],
    pub left_clauses: usize,
    pub right_clauses: usize,
}

impl Text for Listing<'_> {
    ghost text = { λ l. listing l.regions.now l.rows.now l.holes.now l.left_clauses l.right_clauses };

    fn put(&self, out: &mut Output) {
        out.put_bytes(b"rows ");
        put_number(out, self.rows.len());
        out.put_byte(b'\n');
        for row in self.rows {
            self.put_row(out, *row);
        }
    }
}
