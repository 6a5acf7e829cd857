// Pairs of two families: a pair of regions holds a pair of points, part by part.
ghost use Rattle.supplied.specs.Pairs.{pair, pair_axes, pair_holds, pair_inside, pair_meet, pair_shifted};
ghost use Rattle.supplied.specs.PairLaws.{pair_laws};

use crate::ranges::PrefixRange;
use crate::spans::{AddressSpan, AsSpan, PortSpan, ProtocolSpan};
use family::{Edge, Family};

// Two regions, or a point of each.
#[derive(Clone, Copy, PartialEq, Eq, Debug)]
pub struct Pair<A, B> {
    pub first: A,
    pub second: B,
}

pub type RouteWithOrigin = Pair<PrefixRange, AsSpan>;

// The destination address, then the protocol and the port.
pub type Packet = Pair<AddressSpan, Pair<ProtocolSpan, PortSpan>>;

impl<F: Family, G: Family> Family for Pair<F, G> {
    type Point = Pair<F::Point, G::Point>;

    ghost whole = { pair F.Family.whole G.Family.whole };

    ghost first = { pair F.Family.first G.Family.first };

    ghost axes = { pair_axes F.Family.axes G.Family.axes };

    ghost holds = { pair_holds F.Family.holds G.Family.holds };

    ghost inside = { pair_inside F.Family.inside G.Family.inside };

    ghost meet = { pair_meet F.Family.meet G.Family.meet };

    ghost shifted = { pair_shifted F.Family.axes G.Family.axes F.Family.shifted G.Family.shifted };

    ghost laws = { pair_laws F.Family.laws G.Family.laws };

    fn whole_region() -> Pair<F, G> {
        Pair {
            first: F::whole_region(),
            second: G::whole_region(),
        }
    }

    fn first_point() -> Pair<F::Point, G::Point> {
        Pair {
            first: F::first_point(),
            second: G::first_point(),
        }
    }

    fn axis_count() -> u8 {
        (F::axis_count() + G::axis_count()).min(5)
    }

    fn holds_point(self, point: Pair<F::Point, G::Point>) -> bool {
        self.first.holds_point(point.first) && self.second.holds_point(point.second)
    }

    fn is_inside(self, other: Pair<F, G>) -> bool {
        self.first.is_inside(other.first) && self.second.is_inside(other.second)
    }

    fn meet_with(self, other: Pair<F, G>) -> Option<Pair<F, G>> {
        Some(Pair {
            first: self.first.meet_with(other.first)?,
            second: self.second.meet_with(other.second)?,
        })
    }

    // The first part's axes stand before the second's, so that an axis is a number and not an enum of one family.
    fn shift(
        self,
        point: Pair<F::Point, G::Point>,
        axis: u8,
        edge: Edge,
    ) -> Pair<F::Point, G::Point> {
        let before = F::axis_count();
        if before + G::axis_count() >= 5 {
            point
        } else if axis <= before {
            Pair {
                first: self.first.shift(point.first, axis, edge),
                ..point
            }
        } else {
            Pair {
                second: self.second.shift(point.second, axis - before, edge),
                ..point
            }
        }
    }
}
