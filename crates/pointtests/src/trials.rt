// Drawn pairs of filters, each compared and checked at every point of the grid.
use crate::draws::{DrawAction, Draws, Grid};
use crate::filters::{Drawn, draw_clauses, draw_default, draw_others};
use crate::listings::Listing;
use family::{ActionKind, Clause};
use std::alloc::Global;
use std::process::Abort;
use std::test::Fail;

// The pairs compared, those without a row, and the rows checked.
#[derive(Default, Drop)]
pub struct Tally {
    pub compared: usize,
    pub alike: usize,
    pub rows: usize,
}

// Two filters, as drawn, and which draw they are of.
#[derive(Drop)]
struct Trial<R, A> {
    seed: u64,
    left: Drawn<R, A>,
    right: Drawn<R, A>,
}

impl<R: Grid, A: ActionKind + DrawAction> Trial<R, A> {
    fn draw(alloc: Global, seed: u64) -> Result<Trial<R, A>, Fail> {
        let mut draws = Draws::new(seed);
        let lefts = draw_clauses(alloc, &mut draws)?;
        let rights = draw_others(alloc, &mut draws, &lefts)?;
        let left_default = A::draw_action(&mut draws);
        let right_default = draw_default(&mut draws, left_default);
        Ok(Trial {
            seed,
            left: Drawn {
                clauses: lefts,
                default: left_default,
            },
            right: Drawn {
                clauses: rights,
                default: right_default,
            },
        })
    }

    // Seals the two filters, each in places for six clauses and the default, and compares them; none where that is declined.
    fn compare(&self, alloc: Global) -> Result<Option<Listing<R>>, Fail> {
        let mut left_places = vec![in alloc; Clause::default(); 7]?;
        let mut right_places = vec![in alloc; Clause::default(); 7]?;
        let left = self.left.seal_in(&mut left_places)?;
        let right = self.right.seal_in(&mut right_places)?;
        Ok(Listing::of(alloc, &left, &right)?)
    }

    // Whether the point is treated unlike: then it lies in one row, which names the two places that decide it,
    // and else in none.
    fn check_point(&self, rt: &impl Abort, listing: &Listing<R>, point: R::Point) -> bool {
        let (left_place, left_action) = self.left.decide(point);
        let (right_place, right_action) = self.right.decide(point);
        let unlike = !left_action.is_alike(right_action);
        let mut rows = listing.rows.iter().filter(|row| listing.is_in(row, point));
        let named = rows.next().map(|row| (row.left, row.right));
        assert!(rt;
            named == unlike.then_some((left_place, right_place)) && rows.next().is_none(),
            "the rows that hold a point, seed {}",
            self.seed
        );
        unlike
    }

    // Every point of the grid is checked; answers whether one is treated unlike.
    fn check_grid(&self, rt: &impl Abort, listing: &Listing<R>) -> bool {
        (0..R::LENGTH)
            .filter_map(|number| R::grid_point(number))
            .fold(false, |unlike, point| {
                self.check_point(rt, listing, point) || unlike
            })
    }

    // What a comparison wrote is what the two filters say, point by point.
    fn check(&self, rt: &impl Abort, listing: &Listing<R>) {
        let unlike = self.check_grid(rt, listing);
        let seed = self.seed;
        assert!(rt;
            listing.rows.is_empty() != unlike,
            "rows, but no unlike point, seed {seed}"
        );
        assert!(rt;
            listing.rows_are_in_order(),
            "rows or holes out of order, seed {seed}"
        );
        assert!(rt;
            listing.rows_are_met(),
            "a row without a point, seed {seed}"
        );
    }
}

// So many trials, each with its seed.
pub fn trials<R: Grid, A: ActionKind + DrawAction>(
    rt: &(impl Abort + AllocGlobal),
    seeds: u64,
) -> Result<Tally, Fail> {
    let mut tally = Tally::default();
    for seed in 0..seeds {
        let trial = Trial::<R, A>::draw(rt.alloc(), seed)?;
        if let Some(listing) = trial.compare(rt.alloc())? {
            trial.check(rt, &listing);
            tally.compared = tally.compared.saturating_add(1);
            tally.alike = tally
                .alike
                .saturating_add(usize::from(listing.rows.is_empty()));
            tally.rows = tally.rows.saturating_add(listing.rows.len());
        }
    }
    Ok(tally)
}
