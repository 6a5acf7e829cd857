// A sealed filter: it is matched, compared and written, and takes no edit.
ghost use Rattle.std.specs.Prelude.{◌≡◌, ℕ, ◌<◌, ◌≤◌, Bool, List, length, Ok};
ghost use Rattle.buffers.specs.Buffers.{written};
ghost use Rattle.fields.specs.Fields.{Octets};
ghost use Rattle.filterfile.specs.Files.{usable_places, file_of};
ghost use Rattle.filterfile.specs.WrittenFiles.{answer_in};
ghost use Rattle.filter.specs.Ledger.{AnswersBy, decision, match_of, FirstHolding};
ghost use Rattle.filter.specs.Views.{file_of_view};

use family::{ActionKind, Clause, Family};
use filterfile::{WriteError, write_file};
use records::{Written, WrittenAction};

// The fields of Draft in a type of its own: each state is a type that is moved, a rule of the project.
// No Model, so that sealing can promise the same places.
#[derive(Drop)]
pub struct Sealed<'a, R, A> {
    pub(crate) places: &'a mut [Clause<R, A>],
    pub(crate) count: usize,
    ghost fits: { count ≤ usable_places (length places.now) },
}

impl<'a, R: Family, A: ActionKind> Sealed<'a, R, A> {
    ghost use Rattle.filter.specs.States.{sealed_view};

    // The clauses in their order.
    pub fn clauses(&self) -> &[Clause<R, A>]
        ensures { result.now ≡ (sealed_view A.reject self.now).clauses }
    {
        &self.places[..self.count]
    }

    pub fn default(&self) -> A
        ensures { result ≡ (sealed_view A.reject self.now).default }
    {
        self.places
            .last()
            .map_or(A::rejecting(), |last| last.action)
    }

    // The place of the first clause whose region passes the test, with its action, or the number of clauses with the default.
    pub fn decided_by<T: Fn(R) -> bool>(&self, test: T) -> (usize, A)
        requires { T.IsAlwaysCallable test }
        ensures { (passes : R → Bool) → AnswersBy passes (T.post test) → result ≡ decision passes (sealed_view A.reject self.now) }
    {
        let clauses = self.clauses();
        match clauses.iter().position(|clause| test(clause.region)) {
            Some(place) => (place, clauses[place].action),
            None => (clauses.len(), self.default()),
        }
    }

    // The place that decides a point, and its action: the first clause whose region holds the point, or the default.
    pub fn first_match(&self, point: R::Point) -> (usize, A)
        ensures answer { result ≡ match_of R.holds (sealed_view A.reject self.now) point }
        ensures first { FirstHolding R.holds (sealed_view A.reject self.now).clauses point result.0 }
    {
        self.decided_by(|region| region.holds_point(point))
    }
}

impl<'a, R: Written, A: WrittenAction> Sealed<'a, R, A> {
    ghost use Rattle.filter.specs.States.{sealed_view};

    // Writes the filter as a file of the given family code to the front of the buffer: answers the file's length.
    // A buffer that is too short is left as it was. Any code is taken, a rule of the project: see write_file.
    pub fn write(&self, code: u8, out: &mut [u8]) -> Result<usize, WriteError>
        ensures answer { result ≡ answer_in out.old (file_of_view R.Written.writes A.WrittenAction.writes code (sealed_view A.ActionKind.reject self.now)) }
        ensures bytes { out.new ≡ written out.old (file_of_view R.Written.writes A.WrittenAction.writes code (sealed_view A.ActionKind.reject self.now)) }
        ensures back { (memory : ℕ) → length (sealed_view A.ActionKind.reject self.now).clauses < memory → file_of R.Recorded.reads A.RecordedAction.reads code memory (file_of_view R.Written.writes A.WrittenAction.writes code (sealed_view A.ActionKind.reject self.now)) ≡ Ok ((sealed_view A.ActionKind.reject self.now).clauses, (sealed_view A.ActionKind.reject self.now).default) }
        ensures kept { (memory : ℕ) (bytes : List ℕ) → Octets bytes → file_of R.Recorded.reads A.RecordedAction.reads code memory bytes ≡ Ok ((sealed_view A.ActionKind.reject self.now).clauses, (sealed_view A.ActionKind.reject self.now).default) → bytes ≡ file_of_view R.Written.writes A.WrittenAction.writes code (sealed_view A.ActionKind.reject self.now) }
    {
        write_file(code, self.clauses(), self.default(), out)
    }
}
