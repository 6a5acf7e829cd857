// The rows of a comparison, in order, and the holes that they have.
ghost use Rattle.std.specs.Prelude.{◌≡◌, ◌+◌, ◌-◌, ◌^◌, ◌<◌, ◌≤◌, min, ◌++◌, length, take, Some, sum_by};
ghost use Rattle.family.specs.Lists.{first_where};
ghost use Rattle.filter.specs.States.{sealed_view};
ghost use Rattle.compare.specs.Cells.{holes_of};
ghost use Rattle.compare.specs.Written.{Written};
ghost use Rattle.compare.specs.Rows.{precedes, ranked, laid, row_at, rows_found, holes_of_rows};

use crate::cells::{MOST_REGIONS, RegionList};
use family::{ActionKind, Family};
use filter::{Sealed, insert_at};

// A row: the two deciding places, the region's number, and where its holes stand and how many they are. A place that is
// the number of clauses is the default's, a rule of the project; no Range for the holes, since a Range is not Copy.
#[derive(Clone, Copy, PartialEq, Eq, Debug, Default)]
pub struct Row {
    pub left: usize,
    pub right: usize,
    pub region: usize,
    pub start: usize,
    pub number: usize,
}

// Rows in their order, at the front of lent places.
#[derive(Drop)]
struct Ranked<'a> {
    rows: &'a mut [Row],
    count: usize,
    ghost fits: { count ≤ length rows.now },
}

fn is_before(a: Row, b: Row) -> bool
    ensures { result ≡ precedes a b }
{
    (a.left, a.right) < (b.left, b.right)
}

// The place of a row: before the first that it precedes.
// Not `partition_point`: it asks that the rows stand in order, which nothing here has to know.
fn rank(rows: &[Row], row: Row) -> usize
    ensures within { result ≤ length rows.now }
    ensures place { result ≡ first_where (precedes row) rows.now }
{
    rows.iter()
        .position(|other| is_before(row, *other))
        .unwrap_or(rows.len())
}

impl<'a> Ranked<'a> {
    fn new(rows: &'a mut [Row]) -> Ranked<'a>
        ensures empty { result.count ≡ 0 }
        ensures memory { result.rows.now ≡ rows.old }
        ensures lender { result.rows.ghost_name ≡ rows.entry.ghost_name }
    {
        Ranked { rows, count: 0 }
    }

    // Puts the row in its place.
    fn put(&mut self, row: Row)
        requires { self.old.count < length self.old.rows.now }
        ensures count { self.new.count ≡ self.old.count + 1 }
        ensures rows { take self.new.count self.new.rows.now ≡ ranked (take self.old.count self.old.rows.now) row }
        ensures memory { length self.new.rows.now ≡ length self.old.rows.now }
        ensures lender { self.new.rows.ghost_name ≡ self.old.rows.ghost_name }
    {
        // Borrowed once under a name, as the places of a growing list are.
        let rows = &mut *self.rows;
        let place = rank(&rows[..self.count], row);
        insert_at(rows, self.count, place, row).unwrap();
        self.count += 1;
    }
}

// How many holes the rows have together.
pub(crate) fn count_holes(rows: &[Row]) -> usize
    ensures { result ≡ min (sum_by (λ row. row.number) rows.now) (2 ^ 64 - 1) }
{
    rows.iter()
        .fold(0, |total: usize, row| total.saturating_add(row.number))
}

// Gives each row the start of its holes.
pub(crate) fn lay_rows(rows: &mut [Row])
    requires { sum_by (λ row. row.number) rows.old < 2 ^ 64 }
    ensures { rows.new ≡ laid 0 rows.old }
{
    let mut start = 0;
    for row in rows {
        row.start = start;
        start += row.number;
    }
}

impl<'a, R: Family> RegionList<'a, R> {
    // The row of a region, where its cell holds a point and the two filters treat it unlike.
    fn row_of<A: ActionKind>(
        &self,
        number: usize,
        left: &Sealed<R, A>,
        right: &Sealed<R, A>,
    ) -> Option<Row>
        ensures { result ≡ row_at R.whole R.first R.axes R.holds R.inside R.shifted A.alike self.now.regions.now (sealed_view A.reject left.now).clauses (sealed_view A.reject left.now).default (sealed_view A.reject right.now).clauses (sealed_view A.reject right.now).default number }
    {
        let region = self.region(number);
        let (left_place, left_action) = left.decided_by(|outer| region.is_inside(outer));
        let (right_place, right_action) = right.decided_by(|outer| region.is_inside(outer));
        if left_action.is_alike(right_action) {
            return None;
        }
        let mut cell = [number; MOST_REGIONS + 1];
        let holes = self.write_holes_of(region, &mut cell[1..]);
        if !self.is_occupied(&cell[..holes + 1]) {
            return None;
        }
        Some(Row {
            left: left_place,
            right: right_place,
            region: number,
            start: 0,
            number: holes,
        })
    }

    // The rows of all regions, in order, at the front of the places.
    pub(crate) fn find_rows<A: ActionKind>(
        &self,
        left: &Sealed<R, A>,
        right: &Sealed<R, A>,
        found: &mut [Row],
    ) -> usize
        requires { length self.now.regions.now ≤ length found.old }
        ensures within { result ≤ length self.now.regions.now }
        ensures rows { take result found.new ≡ rows_found R.whole R.first R.axes R.holds R.inside R.shifted A.alike self.now.regions.now (sealed_view A.reject left.now).clauses (sealed_view A.reject left.now).default (sealed_view A.reject right.now).clauses (sealed_view A.reject right.now).default }
    {
        let mut ranked = Ranked::new(found);
        for number in 0..self.len() {
            if let Some(row) = self.row_of(number, left, right) {
                ranked.put(row);
            }
        }
        ranked.count
    }

    // Writes a region's holes from a place on, and answers the place behind them: there the next row's begin.
    // Only these two functions hand buffer and place on; a struct of both would be no plainer.
    fn copy_holes(&self, region: R, holes: &mut [usize], at: usize) -> usize
        requires { at + length (holes_of R.inside R.whole self.now.regions.now region) ≤ length holes.old }
        ensures { Written holes.old (take at holes.old ++ holes_of R.inside R.whole self.now.regions.now region) (Some result) holes.new }
    {
        let mut own = [0; MOST_REGIONS];
        let count = self.write_holes_of(region, &mut own);
        holes[at..at + count].copy_from_slice(&own[..count]);
        at + count
    }

    // Writes the holes of all rows, one row after the other.
    pub(crate) fn write_holes(&self, rows: &[Row], holes: &mut [usize])
        requires { length (holes_of_rows R.inside R.whole self.now.regions.now rows.now) ≤ length holes.old }
        ensures { Written holes.old (holes_of_rows R.inside R.whole self.now.regions.now rows.now) (Some (length (holes_of_rows R.inside R.whole self.now.regions.now rows.now))) holes.new }
    {
        let mut at = 0;
        for row in rows {
            at = self.copy_holes(self.region(row.region), holes, at);
        }
    }
}
