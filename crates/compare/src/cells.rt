// A region list: a region's holes, and whether its cell, the points of the region outside them, holds a point.
ghost use Rattle.std.specs.Prelude.{◌≡◌, ◌+◌, ◌-◌, ◌<◌, ◌≤◌, ℕ, Bool, List, length, take};
ghost use Rattle.std.specs.Iterator.{IsFinite, Drains, size};
ghost use Rattle.std.specs.List.{list_any};
ghost use Rattle.compare.specs.Cells.{region_at, strictly, above, holes_of, holding, in_cell, reaches, reaches_by, cornered, occupied};

use family::{Edge, Family};

// The most regions that a list has. An array of so many, with a count beside it, is a list without the heap:
// no call for C takes any of it.
pub(crate) const MOST_REGIONS: usize = 1024;

// The regions of a comparison, in memory lent by the caller; they go by their numbers.
#[derive(Drop)]
pub(crate) struct RegionList<'a, R> {
    regions: &'a [R],
    ghost few: { length regions.now ≤ 1024 },
}

fn strictly_inside<R: Family>(a: R, b: R) -> bool
    ensures { result ≡ strictly R.inside a b }
{
    a.is_inside(b) && !b.is_inside(a)
}

// Puts the numbers at the front of the places; answers how many they are.
// It counts: after a `zip` with `iter_mut` nothing would be known of the places.
fn put_front<I: Iterator<Item = usize> + Drop>(numbers: I, out: &mut [usize]) -> usize
    requires can { I.can_next numbers }
    requires ends { IsFinite (I.remaining numbers) }
    requires fits { size (I.remaining numbers) ≤ length out.old }
    ensures within { result ≤ size (I.remaining numbers) }
    ensures put { (xs : List ℕ) × Drains I.next_gives numbers xs × (take result out.new ≡ xs) }
{
    let mut count = 0;
    for number in numbers {
        out[count] = number;
        count += 1;
    }
    count
}

impl<'a, R: Family> RegionList<'a, R> {
    pub(crate) fn new(regions: &'a [R]) -> RegionList<'a, R>
        requires { length regions.now ≤ 1024 }
        ensures { result.regions.now ≡ regions.now }
    {
        RegionList { regions }
    }

    pub(crate) fn len(&self) -> usize
        ensures { result ≡ length self.now.regions.now }
    {
        self.regions.len()
    }

    // The region with a number; the whole region stands for a number that none has.
    pub(crate) fn region(&self, number: usize) -> R
        ensures { result ≡ region_at R.whole self.now.regions.now number }
    {
        self.regions
            .get(number)
            .copied()
            .unwrap_or(R::whole_region())
    }

    // Whether a region is strictly inside one of some numbered regions.
    fn is_inside_any(&self, region: R, others: &[usize]) -> bool
        ensures { result ≡ list_any (above R.inside (region_at R.whole self.now.regions.now) region) others.now }
    {
        others
            .iter()
            .any(|other| strictly_inside(region, self.region(*other)))
    }

    // A region's holes at the front of the places; answers how many they are.
    pub(crate) fn write_holes_of(&self, region: R, out: &mut [usize]) -> usize
        requires { length self.now.regions.now ≤ length out.old }
        ensures within { result ≤ length self.now.regions.now }
        ensures found { take result out.new ≡ holes_of R.inside R.whole self.now.regions.now region }
    {
        let mut nested = [0; MOST_REGIONS];
        let numbers = 0..self.regions.len();
        let count = put_front(
            numbers.filter(|number| strictly_inside(self.region(*number), region)),
            &mut nested,
        );
        let nested = &nested[..count];
        put_front(
            nested
                .iter()
                .copied()
                .filter(|hole| !self.is_inside_any(self.region(*hole), nested)),
            out,
        )
    }

    fn is_held(&self, point: R::Point, holes: &[usize]) -> bool
        ensures { result ≡ list_any (holding R.holds (region_at R.whole self.now.regions.now) point) holes.now }
    {
        holes
            .iter()
            .any(|hole| self.region(*hole).holds_point(point))
    }

    // Whether a point lies in the cell that is given by its region's number and then its holes'.
    // One slice, no struct: the edges of the region and of the holes are tried alike.
    fn is_in_cell(&self, cell: &[usize], point: R::Point) -> bool
        ensures { result ≡ in_cell R.holds (region_at R.whole self.now.regions.now) cell.now point }
    {
        let [own, holes @ ..] = cell else {
            return false;
        };
        self.region(*own).holds_point(point) && !self.is_held(point, holes)
    }

    // Whether shifts along `left` axes from `axis` on, from the point, reach a point of the cell.
    fn is_reached(&self, cell: &[usize], left: u8, axis: u8, point: R::Point) -> bool
        requires { left + axis < 256 }
        ensures { result ≡ reaches R.shifted (region_at R.whole self.now.regions.now) (in_cell R.holds (region_at R.whole self.now.regions.now) cell.now) cell.now left axis point }
    {
        if left == 0 {
            return self.is_in_cell(cell, point);
        }
        // The closure's clauses are written out: it calls the function that it stands in.
        self.is_reached(cell, left - 1, axis + 1, point)
            || cell.iter().any(
                |number| -> bool
                    requires some { 0 < left }
                    requires axes { left + axis < 256 }
                    ensures { result ≡ reaches_by R.shifted (region_at R.whole self.entry.now.regions.now) (in_cell R.holds (region_at R.whole self.entry.now.regions.now) cell.entry.now) cell.entry.now (left - 1) axis point number.now }
                {
                    let region = self.region(*number);
                    // Near, then far: an `any` over both edges would be one more closure with its clauses written out.
                    self.is_reached(
                        cell,
                        left - 1,
                        axis + 1,
                        region.shift(point, axis, Edge::Near),
                    ) || self.is_reached(
                        cell,
                        left - 1,
                        axis + 1,
                        region.shift(point, axis, Edge::Far),
                    )
                },
            )
    }

    // Whether a cell holds a point: its region's near corner is tried before all other points that shifts reach.
    pub(crate) fn is_occupied(&self, cell: &[usize]) -> bool
        ensures { result ≡ occupied R.first R.axes R.holds R.shifted (region_at R.whole self.now.regions.now) cell.now }
    {
        let [own, ..] = cell else {
            return false;
        };
        self.is_in_cell(cell, near_corner(self.region(*own)))
            || self.is_reached(cell, R::axis_count(), 1, R::first_point())
    }
}

// The region's own near corner: the first point shifted to its near edge along each axis.
fn near_corner<R: Family>(region: R) -> R::Point
    ensures { result ≡ cornered R.shifted region R.axes 1 R.first }
{
    (1..=R::axis_count()).fold(R::first_point(), |point, axis| {
        region.shift(point, axis, Edge::Near)
    })
}
