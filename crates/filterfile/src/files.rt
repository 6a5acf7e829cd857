// A whole file read into lent clause memory: first checked, then filled in.
ghost use Rattle.std.specs.Prelude.{◌≡◌, length, IfOk};
ghost use Rattle.filterfile.specs.AcceptedFiles.{Rightly};
ghost use Rattle.filterfile.specs.Files.{head_of, usable_places, in_part, clause_of, clauses_of, behind_of, default_of, file_of, answer_of, places_after, HandedOver};
ghost use Rattle.fields.specs.Reading.{seen, seen_rest};
ghost use Rattle.fields.specs.declared.faults.Part.TheVariants.{Clause as InClause};

use family::Clause;
use fields::{Fault, FaultKind, Number, Part, RecordFault};
use records::{Recorded, RecordedAction};

// How many clauses a file may have.
pub(crate) const LIMIT: usize = 64;

// How many of so many places are used for clauses: all but one for the default, and at most the limit.
pub fn usable_places(memory: usize) -> usize
    ensures { result ≡ usable_places memory }
{
    memory.saturating_sub(1).min(LIMIT)
}

// The number of clauses, behind the family code: a plain number, see read_file.
fn read_head(code: u8, memory: usize, bytes: &[u8]) -> Result<(usize, &[u8]), RecordFault>
    ensures { seen result ≡ head_of code memory bytes.now }
{
    let (family, rest) = u8::read(bytes)?;
    if family != code {
        return Err(RecordFault::at(FaultKind::OtherFamily, bytes));
    }
    let (count, body) = u8::read(rest)?;
    let count = usize::from(count);
    if count > LIMIT {
        return Err(RecordFault::at(FaultKind::CountAboveLimit, rest));
    }
    if memory == 0 || count > usable_places(memory) {
        return Err(RecordFault::at(FaultKind::NoPlaces, rest));
    }
    Ok((count, body))
}

fn read_clause<R: Recorded, A: RecordedAction>(
    bytes: &[u8],
) -> Result<(Clause<R, A>, &[u8]), RecordFault>
    ensures { seen result ≡ clause_of R.Recorded.reads A.RecordedAction.reads bytes.now }
{
    let (region, rest) = R::read(bytes)?;
    let (action, rest) = A::read(rest)?;
    Ok((Clause { region, action }, rest))
}

// Reads so many clauses and hands each to `keep` with its number: answers the bytes behind them.
fn read_clauses<'a, R: Recorded, A: RecordedAction, F: FnMut(usize, Clause<R, A>)>(
    total: usize,
    count: usize,
    bytes: &'a [u8],
    keep: &mut F,
) -> Result<&'a [u8], Fault>
    requires { F.IsAlwaysCallable keep.old }
    ensures rest { seen_rest result ≡ behind_of (clauses_of R.Recorded.reads A.RecordedAction.reads total count 0 bytes.now) }
    ensures kept { IfOk (clauses_of R.Recorded.reads A.RecordedAction.reads total count 0 bytes.now) (λ p. HandedOver F.step 0 keep.old p.0 keep.new) }
{
    // A loop, as a fault tells the number: in a try_fold the same three lines stand in a closure that captures `keep`.
    let mut rest = bytes;
    for number in 0..count {
        let read = read_clause::<R, A>(rest);
        let (clause, behind) = read.map_err(|fault| fault.in_part(Part::Clause(number), total))?;
        keep(number, clause);
        rest = behind;
    }
    Ok(rest)
}

// The default action, behind which no byte stands.
fn read_default<A: RecordedAction>(total: usize, bytes: &[u8]) -> Result<A, Fault>
    ensures { result ≡ default_of A.RecordedAction.reads total bytes.now }
{
    let read = A::read(bytes).and_then(|(action, spare)| match spare {
        [] => Ok(action),
        _ => Err(RecordFault::at(FaultKind::SpareBytes, spare)),
    });
    read.map_err(|fault| fault.in_part(Part::Default, total))
}

// Reads a file of the family of this code into the first places: answers the number of its clauses and its default.
// A file that is refused leaves the places as they were.
// The code is any number, also of a family that is not supplied, a rule of the project: a narrower type would ask more of callers.
pub fn read_file<R: Recorded, A: RecordedAction>(
    code: u8,
    bytes: &[u8],
    places: &mut [Clause<R, A>],
) -> Result<(usize, A), Fault>
    ensures answer { result ≡ answer_of (file_of R.Recorded.reads A.RecordedAction.reads code (length places.old) bytes.now) }
    ensures places { places.new ≡ places_after places.old (file_of R.Recorded.reads A.RecordedAction.reads code (length places.old) bytes.now) }
    ensures file { Rightly R.Recorded.reads A.RecordedAction.reads code (length places.old) bytes.now result places.new }
{
    let total = bytes.len();
    let head = read_head(code, places.len(), bytes);
    let (count, body) = head.map_err(|fault| fault.in_part(Part::Head, total))?;
    let rest = read_clauses::<R, A, _>(total, count, body, &mut |_, _| ())?;
    let default = read_default::<A>(total, rest)?;
    let mut fill = |number: usize, clause: Clause<R, A>| {
        // The head has told a count that the places hold, so each number is in; read_clauses may call at any number, so it is tested.
        // By its index: after `get_mut` of a slice a proof knows its length and no element.
        if number < places.len() {
            places[number] = clause;
        }
    };
    read_clauses(total, count, body, &mut fill)?;
    Ok((count, default))
}
