// Prefix ranges as a family: what is asked of them and of routes.
ghost use Rattle.supplied.specs.PrefixRanges.{whole_prefix, first_of_routes, prefix_holds, prefix_inside, prefix_meet, route_shifted};
ghost use Rattle.supplied.specs.Carried.{carried_laws};
ghost use Rattle.supplied.specs.PrefixValues.{range_values, route_values};
ghost use Rattle.supplied.specs.RangeLaws.{range_laws};

use super::PrefixRange;
use crate::edges::to_edge;
use crate::prefixes::same_prefix;
use crate::routes::Route;
use family::{Edge, Family};

impl Family for PrefixRange {
    type Point = Route;

    ghost whole = { whole_prefix };

    ghost first = { first_of_routes };

    ghost axes = { 2 };

    ghost holds = { prefix_holds };

    ghost inside = { prefix_inside };

    ghost meet = { prefix_meet };

    ghost shifted = { route_shifted };

    ghost laws = { carried_laws range_values route_values (range_laws 32) };

    fn whole_region() -> PrefixRange {
        PrefixRange {
            address: 0,
            length: 0,
            low: 0,
            high: 32,
        }
    }

    fn first_point() -> Route {
        Route::cut(0, 0)
    }

    fn axis_count() -> u8 {
        2
    }

    fn holds_point(self, point: Route) -> bool {
        self.low <= point.length()
            && point.length() <= self.high
            && same_prefix(point.address(), self.address, self.length)
    }

    fn is_inside(self, other: PrefixRange) -> bool {
        other.low <= self.low
            && self.high <= other.high
            && other.length <= self.length
            && same_prefix(self.address, other.address, other.length)
    }

    fn meet_with(self, other: PrefixRange) -> Option<PrefixRange> {
        if other.length <= self.length {
            self.narrowed(other)
        } else {
            other.narrowed(self)
        }
    }

    // Axis 1 is the length, axis 2 the address, as a pair counts them; any other number leaves the point.
    fn shift(self, point: Route, axis: u8, edge: Edge) -> Route {
        match axis {
            1 => {
                let (low, high) = (u32::from(self.low), u32::from(self.high));
                let length = to_edge(32, low, high, edge, u32::from(point.length()));
                Route::cut(point.address(), length as u8)
            }
            2 => {
                let last = self.last_address();
                let address = to_edge(u32::MAX, self.address, last, edge, point.address());
                Route::cut(address, point.length())
            }
            _ => point,
        }
    }
}
