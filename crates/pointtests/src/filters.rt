// Filters as they are drawn, and how they are put into drafts.
use crate::draws::{Draw, DrawAction, Draws};
use family::{ActionKind, Clause, Family};
use filter::{Draft, EditError, Sealed};
use std::alloc::Global;
use std::test::Fail;

// The clauses in their order, and the default.
#[derive(Drop)]
pub struct Drawn<R, A> {
    pub clauses: Vec<Clause<R, A>>,
    pub default: A,
}

// Up to four clauses, and sometimes six: six are drawn, and as many of them are taken.
pub fn draw_clauses<R: Draw, A: DrawAction>(
    alloc: Global,
    draws: &mut Draws,
) -> Result<Vec<Clause<R, A>>, Fail> {
    let mut clauses = Vec::new(alloc);
    for _ in 0..6 {
        clauses.push(Clause::draw(draws).ok_or("no clause")?)?;
    }
    clauses.truncate(draws.pick(&[0, 1, 2, 3, 3, 4, 4, 6]).unwrap_or(0));
    Ok(clauses)
}

// The clauses of the other side: one time in four the same, one time in four with one of them changed, else drawn anew.
pub fn draw_others<R: Draw, A: DrawAction>(
    alloc: Global,
    draws: &mut Draws,
    clauses: &Vec<Clause<R, A>>,
) -> Result<Vec<Clause<R, A>>, Fail> {
    if draws.once_in(2) {
        return draw_clauses(alloc, draws);
    }
    let mut others = clauses.clone()?;
    if draws.once_in(2) {
        let clause = Clause::draw(draws).ok_or("no clause")?;
        if let Some(place) = others.get_mut(draws.next() % 8) {
            *place = clause;
        }
    }
    Ok(others)
}

// One time in two the other side's default, else drawn anew.
pub fn draw_default<A: DrawAction>(draws: &mut Draws, other: A) -> A {
    if draws.once_in(2) {
        other
    } else {
        A::draw_action(draws)
    }
}

impl<R: Family, A: ActionKind> Drawn<R, A> {
    // The place that decides a point, and its action: the tests' own search, which must not be the product's, since that is
    // judged by it.
    pub fn decide(&self, point: R::Point) -> (usize, A) {
        self.clauses
            .iter()
            .enumerate()
            .find(|(_, clause)| clause.region.holds_point(point))
            .map_or((self.clauses.len(), self.default), |(place, clause)| {
                (place, clause.action)
            })
    }

    // Sealed in the places that are lent: the clauses are inserted one behind the other, and the default set.
    pub fn seal_in<'a>(
        &self,
        places: &'a mut [Clause<R, A>],
    ) -> Result<Sealed<'a, R, A>, EditError> {
        let mut draft = Draft::new(places);
        for (place, clause) in self.clauses.iter().enumerate() {
            draft.insert(place, *clause)?;
        }
        draft.set_default(self.default)?;
        Ok(draft.seal())
    }
}
