// What a filter does with a route or a packet, and when two actions are alike.
ghost use Rattle.std.specs.Prelude.{◌≡◌};
ghost use Rattle.supplied.specs.Actions.{rejected, same_action, route_action_laws};
ghost use Rattle.supplied.specs.Verdicts.{refused, same_verdict, verdict_laws};

use family::ActionKind;

// Reject, or accept with a local preference and a MED, each of which may be absent.
#[derive(Clone, Copy, PartialEq, Eq, Debug)]
pub enum RouteAction {
    Reject,
    Accept {
        preference: Option<u32>,
        med: Option<u32>,
    },
}

#[derive(Clone, Copy, PartialEq, Eq, Debug)]
pub enum Verdict {
    Reject = 0,
    Accept = 1,
}

// The two impls are alike: a macro cannot give an impl with ghost items, and one impl for all types with `==` would also take
// types that are no actions.
impl ActionKind for RouteAction {
    type Effect = RouteAction;

    ghost reject = { rejected };

    ghost effect = { λ a. a };

    ghost alike = { same_action };

    ghost laws = { route_action_laws };

    fn rejecting() -> RouteAction {
        RouteAction::Reject
    }

    fn is_alike(self, other: RouteAction) -> bool {
        self == other
    }
}

impl ActionKind for Verdict {
    type Effect = Verdict;

    ghost reject = { refused };

    ghost effect = { λ a. a };

    ghost alike = { same_verdict };

    ghost laws = { verdict_laws };

    fn rejecting() -> Verdict {
        Verdict::Reject
    }

    fn is_alike(self, other: Verdict) -> bool {
        self == other
    }
}
