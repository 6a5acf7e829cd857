// Families whose regions, and action kinds whose actions, are read from bytes and written to them.
ghost use Rattle.std.specs.Prelude.{◌≡◌, ℕ, List, ◌++◌};
ghost use Rattle.buffers.specs.Outputs.{Puts};
ghost use Rattle.fields.specs.Reading.{Read, seen, outcome_of, held_in};
ghost use Rattle.fields.specs.Undoing.{RecordLaws};

use buffers::Output;
use family::{ActionKind, Family};
use fields::RecordFault;

// It is a rule of the project that a recorded family is a trait over the family trait whose functions promise what a region
// means. An action holds no points, so action kinds have traits of their own; a third trait would only move the clause that
// both share.
pub trait Recorded: Family {
    // The region at the front of some bytes and the bytes behind it, or the first fault.
    ghost reads: { List ℕ → Read Self };

    fn read(bytes: &[u8]) -> Result<(Self, &[u8]), RecordFault>
        ensures answer { seen result ≡ reads bytes.now }
        ensures meaning { (point : Self.Point) → held_in Self.Family.holds (outcome_of (seen result)) point ≡ held_in Self.Family.holds (outcome_of (reads bytes.now)) point };
}

pub trait RecordedAction: ActionKind {
    // The action at the front of some bytes and the bytes behind it, or the first fault.
    ghost reads: { List ℕ → Read Self };

    fn read(bytes: &[u8]) -> Result<(Self, &[u8]), RecordFault>
        ensures answer { seen result ≡ reads bytes.now };
}

pub trait Written: Recorded {
    // The bytes of a region.
    ghost writes: { Self → List ℕ };

    // The region's numbers fit their fields.
    ghost fits: { Self → Type 0 };

    // Puts the region's record at the output's place.
    fn write(self, out: &mut Output)
        ensures bytes { Puts out.old (writes self) out.new }
        ensures numbers { fits self }
        ensures meaning { (behind : List ℕ) (point : Self.Point) → held_in Self.Family.holds (outcome_of (Self.Recorded.reads (writes self ++ behind))) point ≡ Self.Family.holds self point };

    // What each `impl` must prove: reading undoes writing, and writing undoes reading.
    ghost undoing: { RecordLaws fits Self.reads writes };
}

pub trait WrittenAction: RecordedAction {
    // The bytes of an action.
    ghost writes: { Self → List ℕ };

    // The action's numbers fit their fields.
    ghost fits: { Self → Type 0 };

    // Puts the action's record at the output's place.
    fn write(self, out: &mut Output)
        ensures bytes { Puts out.old (writes self) out.new }
        ensures numbers { fits self };

    // What each `impl` must prove: reading undoes writing, and writing undoes reading.
    ghost undoing: { RecordLaws fits Self.reads writes };
}
