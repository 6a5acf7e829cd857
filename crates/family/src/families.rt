// A family of regions: its whole region, first point and axes, and what is asked of regions and points.
ghost use Rattle.std.specs.Prelude.{◌≡◌, ℕ, Bool, Option};
ghost use Rattle.family.specs.declared.edges.Edge.{Edge};
ghost use Rattle.family.specs.Families.{FamilyLaws};

use crate::edges::Edge;

pub trait Family: Copy {
    type Point: Copy;

    ghost whole: { Self };

    ghost first: { Self.Point };

    ghost axes: { ℕ };

    ghost holds: { Self → Self.Point → Bool };

    ghost inside: { Self → Self → Bool };

    ghost meet: { Self → Self → Option Self };

    ghost shifted: { Self.Point → ℕ → Edge → Self → Self.Point };

    // What each `impl` must prove.
    ghost laws: { FamilyLaws whole first axes holds inside meet shifted };

    fn whole_region() -> Self
        ensures { result ≡ whole };

    fn first_point() -> Self::Point
        ensures { result ≡ first };

    // Axes go by number, from 1, since a pair counts the axes of its two parts one behind the other.
    fn axis_count() -> u8
        ensures { result ≡ axes };

    fn holds_point(self, point: Self::Point) -> bool
        ensures { result ≡ holds self point };

    fn is_inside(self, other: Self) -> bool
        ensures { result ≡ inside self other };

    fn meet_with(self, other: Self) -> Option<Self>
        ensures { result ≡ meet self other };

    // The point moved along the axis to an edge of this region; a number that is no axis leaves it as it is.
    fn shift(self, point: Self::Point, axis: u8, edge: Edge) -> Self::Point
        ensures { result ≡ shifted point axis edge self };
}
