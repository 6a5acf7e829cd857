// The comparison of two sealed filters, into places for regions, rows and holes, all lent by the caller: no heap.
// What a family tells is handed to the definitions one by one: a ghost member of the trait that held it all would be
// written out again by each impl.
ghost use Rattle.std.specs.Prelude.{◌≡◌, ◌≤◌, length};
ghost use Rattle.filter.specs.States.{sealed_view};
ghost use Rattle.compare.specs.Answered.{Rightly};
ghost use Rattle.compare.specs.Compared.{unless_declined, list_for, rows_in, holes_in, report_on, outcome, regions_after};

use crate::cells::{MOST_REGIONS, RegionList};
use crate::regions::gather;
use crate::reports::{Declined, Report};
use crate::rows::{Row, count_holes, lay_rows};
use family::{ActionKind, Family};
use filter::Sealed;

// A family with more axes is not compared.
const MOST_AXES: u8 = 4;

// The rows of a region list and their holes, or why they have no places.
fn report_on<R: Family, A: ActionKind>(
    listed: &RegionList<R>,
    left: &Sealed<R, A>,
    right: &Sealed<R, A>,
    rows: &mut [Row],
    holes: &mut [usize],
) -> Result<Report, Declined>
    ensures outcome { result ≡ report_on R.whole R.first R.axes R.holds R.inside R.meet R.shifted A.alike (sealed_view A.reject left.now) (sealed_view A.reject right.now) listed.now.regions.now (length rows.old) (length holes.old) }
    ensures rows { rows.new ≡ unless_declined result (rows_in R.whole R.first R.axes R.holds R.inside R.meet R.shifted A.alike (sealed_view A.reject left.now) (sealed_view A.reject right.now) listed.now.regions.now) rows.old }
    ensures holes { holes.new ≡ unless_declined result (holes_in R.whole R.first R.axes R.holds R.inside R.meet R.shifted A.alike (sealed_view A.reject left.now) (sealed_view A.reject right.now) listed.now.regions.now) holes.old }
{
    // An array and a count, since the heap is not used here.
    let mut places = [Row::default(); MOST_REGIONS];
    let count = listed.find_rows(left, right, &mut places);
    let found = &mut places[..count];
    if found.len() > rows.len() {
        return Err(Declined::NoRowPlace);
    }
    let total = count_holes(found);
    if total > holes.len() {
        return Err(Declined::NoHolePlace);
    }
    lay_rows(found);
    rows[..count].copy_from_slice(found);
    listed.write_holes(found, holes);
    Ok(Report {
        regions: listed.len(),
        rows: count,
        holes: total,
    })
}

// Compares two sealed filters: writes the region list, the rows that the filters treat unlike, and the rows' holes.
pub fn compare<R: Family, A: ActionKind>(
    left: &Sealed<R, A>,
    right: &Sealed<R, A>,
    regions: &mut [R],
    rows: &mut [Row],
    holes: &mut [usize],
) -> Result<Report, Declined>
    ensures outcome { result ≡ outcome R.whole R.first R.axes R.holds R.inside R.meet R.shifted A.alike (sealed_view A.reject left.now) (sealed_view A.reject right.now) (length regions.old) (length rows.old) (length holes.old) }
    ensures regions { regions.new ≡ regions_after R.whole R.first R.axes R.holds R.inside R.meet R.shifted A.alike (sealed_view A.reject left.now) (sealed_view A.reject right.now) regions.old }
    ensures rows { rows.new ≡ unless_declined result (rows_in R.whole R.first R.axes R.holds R.inside R.meet R.shifted A.alike (sealed_view A.reject left.now) (sealed_view A.reject right.now) (list_for R.whole R.first R.axes R.holds R.inside R.meet R.shifted A.alike (sealed_view A.reject left.now) (sealed_view A.reject right.now) (length regions.old))) rows.old }
    ensures holes { holes.new ≡ unless_declined result (holes_in R.whole R.first R.axes R.holds R.inside R.meet R.shifted A.alike (sealed_view A.reject left.now) (sealed_view A.reject right.now) (list_for R.whole R.first R.axes R.holds R.inside R.meet R.shifted A.alike (sealed_view A.reject left.now) (sealed_view A.reject right.now) (length regions.old))) holes.old }
    ensures right { Rightly R.whole R.axes R.holds R.inside A.alike (sealed_view A.reject left.now) (sealed_view A.reject right.now) (length regions.old) (length rows.old) (length holes.old) result regions.new rows.new holes.new }
{
    if R::axis_count() > MOST_AXES {
        return Err(Declined::TooManyAxes);
    }
    let used = regions.len().min(MOST_REGIONS);
    let places = &mut regions[..used];
    let count = gather(places, left.clauses(), right.clauses()).ok_or(Declined::NoRegionPlace)?;
    report_on(
        &RegionList::new(&regions[..count]),
        left,
        right,
        rows,
        holes,
    )
}
