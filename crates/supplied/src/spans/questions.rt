// Spans as a family: what is asked of them and of their numbers.
ghost use Rattle.supplied.specs.Spans.{whole_span, first_number, span_holds, span_inside, span_meet, span_shifted};
ghost use Rattle.supplied.specs.SpanLaws.{span_laws};

use super::{Span, SpanPoint};
use crate::edges::to_edge;
use family::{Edge, Family};

impl<const TOP: u32> Family for Span<TOP> {
    type Point = SpanPoint<TOP>;

    ghost whole = { whole_span TOP };

    ghost first = { first_number TOP };

    ghost axes = { 1 };

    ghost holds = { span_holds TOP };

    ghost inside = { span_inside TOP };

    ghost meet = { span_meet TOP };

    ghost shifted = { span_shifted TOP };

    ghost laws = { span_laws TOP };

    fn whole_region() -> Span<TOP> {
        Span { low: 0, high: TOP }
    }

    fn first_point() -> SpanPoint<TOP> {
        SpanPoint { value: 0 }
    }

    fn axis_count() -> u8 {
        1
    }

    fn holds_point(self, point: SpanPoint<TOP>) -> bool {
        self.low <= point.value && point.value <= self.high
    }

    fn is_inside(self, other: Span<TOP>) -> bool {
        other.low <= self.low && self.high <= other.high
    }

    fn meet_with(self, other: Span<TOP>) -> Option<Span<TOP>> {
        Span::new(self.low.max(other.low), self.high.min(other.high)).ok()
    }

    // Axis 1 is the number itself; any other number leaves the point.
    fn shift(self, point: SpanPoint<TOP>, axis: u8, edge: Edge) -> SpanPoint<TOP> {
        if axis != 1 {
            return point;
        }
        SpanPoint {
            value: to_edge(TOP, self.low, self.high, edge, point.value),
        }
    }
}
