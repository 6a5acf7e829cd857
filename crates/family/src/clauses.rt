// A clause of a filter: the routes that it speaks of, and what is done with them.
ghost use Rattle.std.specs.Prelude.{◌≡◌};

use crate::actions::ActionKind;
use crate::families::Family;

#[derive(Clone, Copy, PartialEq, Eq, Debug)]
pub struct Clause<R, A> {
    pub region: R,
    pub action: A,
}

// What stands at a place before a clause is put there: every route is rejected.
impl<R: Family, A: ActionKind> Default for Clause<R, A> {
    ghost is_default = { λ c. c ≡ record { region = R.whole; action = A.reject } };

    fn default() -> Clause<R, A> {
        Clause {
            region: R::whole_region(),
            action: A::rejecting(),
        }
    }
}
