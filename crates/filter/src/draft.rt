// A draft: a filter that is edited. Sealing it moves it.
ghost use Rattle.std.specs.Prelude.{◌≡◌, ◌≤◌, length, slice_set};
ghost use Rattle.filterfile.specs.Files.{usable_places, file_of};
ghost use Rattle.filter.specs.Views.{empty_view, with_default, loaded_view, loaded_places, load_answer};
ghost use Rattle.filter.specs.Ledger.{if_done, insert_answer, after_insert, place_answer, after_remove, after_replace, default_answer, after_default, inserted_places, removed_places};

use crate::errors::EditError;
use crate::places::{insert_at, put_last, remove_at, replace_at};
use crate::sealed::Sealed;
use family::{ActionKind, Clause, Family};
use fields::Fault;
use filterfile::{read_file, usable_places};
use records::{Recorded, RecordedAction};

// The clauses stand in the first places, the default in the last. No Model: the methods promise what the lent places hold.
// A type of its own with the fields of Sealed: each state is a type that is moved, a rule of the project.
// Each method tells by `lender` that the places are the slice that was lent: it relates two moments, which no type says.
#[derive(Drop)]
pub struct Draft<'a, R, A> {
    places: &'a mut [Clause<R, A>],
    count: usize,
    ghost fits: { count ≤ usable_places (length places.now) },
}

// A place that holds a default: its region is not read.
fn default_place<R: Family, A: ActionKind>(action: A) -> Clause<R, A>
    ensures { result ≡ record { region = R.whole; action = action } }
{
    Clause {
        region: R::whole_region(),
        action,
    }
}

impl<'a, R: Family, A: ActionKind> Draft<'a, R, A> {
    ghost use Rattle.filter.specs.States.{draft_view, sealed_view};

    // An empty draft with default reject, in memory that is lent.
    pub fn new(places: &'a mut [Clause<R, A>]) -> Draft<'a, R, A>
        ensures view { draft_view A.reject result ≡ empty_view A.reject (length places.old) }
        ensures memory { result.places.now ≡ with_default R.whole places.old A.reject }
        ensures lender { result.places.ghost_name ≡ places.entry.ghost_name }
    {
        put_last(places, default_place(A::rejecting()));
        Draft { places, count: 0 }
    }

    // Puts a clause before the one at a place, or at the end.
    pub fn insert(&mut self, place: usize, clause: Clause<R, A>) -> Result<(), EditError>
        ensures answer { result ≡ insert_answer (draft_view A.reject self.old) place }
        ensures view { draft_view A.reject self.new ≡ after_insert (draft_view A.reject self.old) place clause }
        ensures memory { self.new.places.now ≡ if_done result (inserted_places self.old.places.now (length (draft_view A.reject self.old).clauses) place clause) self.old.places.now }
        ensures lender { self.new.places.ghost_name ≡ self.old.places.ghost_name }
    {
        // A name of its own, so that what the places hold is known after their front is lent.
        let places = &mut *self.places;
        // One is kept for the default, and at most 64 are used.
        let usable = usable_places(places.len());
        insert_at(&mut places[..usable], self.count, place, clause)?;
        self.count += 1;
        Ok(())
    }

    // Takes the clause at a place out.
    pub fn remove(&mut self, place: usize) -> Result<(), EditError>
        ensures answer { result ≡ place_answer (draft_view A.reject self.old) place }
        ensures view { draft_view A.reject self.new ≡ after_remove (draft_view A.reject self.old) place }
        ensures memory { self.new.places.now ≡ if_done result (removed_places self.old.places.now (length (draft_view A.reject self.old).clauses) place) self.old.places.now }
        ensures lender { self.new.places.ghost_name ≡ self.old.places.ghost_name }
    {
        remove_at(self.places, self.count, place)?;
        self.count -= 1;
        Ok(())
    }

    // Changes the clause at a place.
    pub fn replace(&mut self, place: usize, clause: Clause<R, A>) -> Result<(), EditError>
        ensures answer { result ≡ place_answer (draft_view A.reject self.old) place }
        ensures view { draft_view A.reject self.new ≡ after_replace (draft_view A.reject self.old) place clause }
        ensures memory { self.new.places.now ≡ if_done result (slice_set self.old.places.now place clause) self.old.places.now }
        ensures lender { self.new.places.ghost_name ≡ self.old.places.ghost_name }
    {
        replace_at(self.places, self.count, place, clause)
    }

    // Changes the default.
    pub fn set_default(&mut self, action: A) -> Result<(), EditError>
        ensures answer { result ≡ default_answer (draft_view A.reject self.old) }
        ensures view { draft_view A.reject self.new ≡ after_default (draft_view A.reject self.old) action }
        ensures memory { self.new.places.now ≡ if_done result (with_default R.whole self.old.places.now action) self.old.places.now }
        ensures lender { self.new.places.ghost_name ≡ self.old.places.ghost_name }
    {
        // A name of its own, so that what the places hold is known after the last is lent.
        let places = &mut *self.places;
        let last = places.last_mut().ok_or(EditError::NoPlaceLeft)?;
        *last = default_place(action);
        Ok(())
    }

    // The same filter, sealed.
    pub fn seal(self) -> Sealed<'a, R, A>
        ensures view { sealed_view A.reject result ≡ draft_view A.reject self.entry }
        ensures memory { result.places.now ≡ self.entry.places.now }
        ensures lender { result.places.ghost_name ≡ self.entry.places.ghost_name }
    {
        let Draft { places, count } = self;
        Sealed { places, count }
    }
}

impl<'a, R: Recorded, A: RecordedAction> Draft<'a, R, A> {
    ghost use Rattle.filter.specs.States.{draft_view};

    // Sets clauses and default to those of a file of the given family code; a fault leaves the draft as it was.
    // Any code is taken, a rule of the project: see read_file.
    pub fn load(&mut self, code: u8, bytes: &[u8]) -> Result<(), Fault>
        ensures answer { result ≡ load_answer (file_of R.Recorded.reads A.RecordedAction.reads code (length self.old.places.now) bytes.now) }
        ensures view { draft_view A.ActionKind.reject self.new ≡ loaded_view (draft_view A.ActionKind.reject self.old) (file_of R.Recorded.reads A.RecordedAction.reads code (length self.old.places.now) bytes.now) }
        ensures memory { self.new.places.now ≡ loaded_places R.Family.whole self.old.places.now (file_of R.Recorded.reads A.RecordedAction.reads code (length self.old.places.now) bytes.now) }
        ensures lender { self.new.places.ghost_name ≡ self.old.places.ghost_name }
    {
        let (count, default) = read_file(code, bytes, self.places)?;
        put_last(self.places, default_place(default));
        self.count = count;
        Ok(())
    }
}
