// The two edges of what lies between two ends, on an axis of numbers.
ghost use Rattle.std.specs.Prelude.{◌≡◌, ◌+◌};
ghost use Rattle.supplied.specs.Edges.{to_edge};

use family::Edge;

// A number moved to an edge: to the low end, or to one past the high end where that is not above the top.
pub fn to_edge(top: u32, low: u32, high: u32, edge: Edge, value: u32) -> u32
    ensures { result ≡ to_edge (top + 1) low (high + 1) edge value }
{
    match edge {
        Edge::Near => low,
        Edge::Far if high < top => high + 1,
        Edge::Far => value,
    }
}
