// The region list: the whole region, the clauses' regions, and their meets, each once.
ghost use Rattle.std.specs.Prelude.{◌≡◌, ◌<◌, ◌≤◌, length, take};
ghost use Rattle.compare.specs.Regions.{same, stands, put, put_clauses, put_meet, put_meets, grown, region_list};
ghost use Rattle.compare.specs.Written.{Written};

use family::{ActionKind, Clause, Family};

// A region list that grows at the front of places lent by the caller. A method answers `None` where no place is left:
// an Option, since this is the one way to fail and the definition of what is written knows no other.
#[derive(Drop)]
struct Growing<'a, R> {
    places: &'a mut [R],
    count: usize,
    ghost fits: { count ≤ length places.now },
}

// A Family has no `==`: two regions are the same where each is inside the other.
fn same_region<R: Family>(a: R, b: R) -> bool
    ensures { result ≡ same R.inside a b }
{
    a.is_inside(b) && b.is_inside(a)
}

fn is_standing<R: Family>(listed: &[R], region: R) -> bool
    ensures { result ≡ stands R.inside region listed.now }
{
    listed.iter().any(|other| same_region(region, *other))
}

impl<'a, R: Family> Growing<'a, R> {
    ghost use Rattle.compare.specs.Growing.{so_far, Grows};

    fn new(places: &'a mut [R]) -> Growing<'a, R>
        ensures empty { result.count ≡ 0 }
        ensures memory { result.places.now ≡ places.old }
        ensures lender { result.places.ghost_name ≡ places.entry.ghost_name }
    {
        Growing { places, count: 0 }
    }

    // Puts the region at the end unless it stands.
    fn put(&mut self, region: R) -> Option<()>
        ensures { Grows self.old (put R.inside (so_far self.old) region) result self.new }
    {
        // Borrowed once under a name: a slice taken of `self.places` itself leaves unknown what the places hold.
        let places = &mut *self.places;
        if is_standing(&places[..self.count], region) {
            return Some(());
        }
        if self.count == places.len() {
            return None;
        }
        places[self.count] = region;
        self.count += 1;
        Some(())
    }

    fn put_clauses<A: ActionKind>(&mut self, clauses: &[Clause<R, A>]) -> Option<()>
        ensures { Grows self.old (put_clauses R.inside clauses.now (so_far self.old)) result self.new }
    {
        for clause in clauses {
            self.put(clause.region)?;
        }
        Some(())
    }

    fn put_meet(&mut self, region: R, other: R) -> Option<()>
        ensures { Grows self.old (put_meet R.inside (so_far self.old) (R.meet region other)) result self.new }
    {
        match region.meet_with(other) {
            Some(both) => self.put(both),
            None => Some(()),
        }
    }

    // Puts the meets of the region with each of the first `before`, in turn.
    fn put_meets(&mut self, region: R, before: usize) -> Option<()>
        requires { before ≤ self.old.count }
        ensures { Grows self.old (put_meets R.inside R.meet region (take before self.old.places.now) (so_far self.old)) result self.new }
    {
        // By place: the list grows while it is gone through.
        for place in 0..before {
            let other = self.places[place];
            self.put_meet(region, other)?;
        }
        Some(())
    }

    // Puts the meets of each region with all before it, to the growing end.
    fn grow(&mut self) -> Option<()>
        ensures { Grows self.old (grown R.inside R.meet (length self.old.places.now) 0 (so_far self.old)) result self.new }
    {
        // A `while`: each turn may move the end.
        let mut place = 0;
        while place < self.count {
            let region = self.places[place];
            self.put_meets(region, place)?;
            place += 1;
        }
        Some(())
    }
}

// Writes the region list of two filters at the front of the places, or as much of it as they hold.
pub(crate) fn gather<R: Family, A: ActionKind>(
    regions: &mut [R],
    left: &[Clause<R, A>],
    right: &[Clause<R, A>],
) -> Option<usize>
    ensures { Written regions.old (region_list R.inside R.meet (length regions.old) R.whole left.now right.now) result regions.new }
{
    let mut list = Growing::new(regions);
    list.put(R::whole_region())?;
    list.put_clauses(left)?;
    list.put_clauses(right)?;
    list.grow()?;
    Some(list.count)
}
