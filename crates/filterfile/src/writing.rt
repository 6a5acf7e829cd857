// A whole file written to a lent buffer.
ghost use Rattle.std.specs.Prelude.{◌≡◌, ◌≤◌, length};
ghost use Rattle.filterfile.specs.WrittenFiles.{number_of, write_answer, written_file, file_bytes, ReadBack, WrittenBack, ClausesFit};

use crate::files::LIMIT;
use buffers::{Output, Text, write_text};
use family::Clause;
use records::{Written, WrittenAction};

// Why a file is not written.
#[derive(Clone, Copy, PartialEq, Eq, Debug)]
pub enum WriteError {
    // More than 64 clauses.
    CountAboveLimit = 14,
    // The file is longer than the buffer.
    BufferTooShort = 19,
}

impl WriteError {
    pub fn number(self) -> u8
        ensures { result ≡ number_of self }
    {
        self as u8
    }
}

// A file of the family of a code, which is a plain number: see write_file.
#[derive(Drop)]
struct File<'a, R, A> {
    code: u8,
    clauses: &'a [Clause<R, A>],
    default: A,
    ghost few: { length clauses.now ≤ 64 },
}

impl<'a, R: Written, A: WrittenAction> Text for File<'a, R, A> {
    ghost text = { λ file. file_bytes R.Written.writes A.WrittenAction.writes file.code file.clauses.now file.default };

    // Its numbers fit their fields.
    ghost told = { λ file. ClausesFit R.Written.fits A.WrittenAction.fits file.clauses.now × A.WrittenAction.fits file.default };

    fn put(&self, out: &mut Output) {
        out.put_byte(self.code);
        out.put_byte(self.clauses.len() as u8);
        for clause in self.clauses {
            clause.region.write(out);
            clause.action.write(out);
        }
        self.default.write(out);
    }
}

// Writes the file of these clauses and this default, of the family of this code, to the front of the buffer:
// answers its length. A refusal leaves the buffer as it was.
// The code is any number, also of a family that is not supplied, a rule of the project: a narrower type would ask more of callers.
pub fn write_file<R: Written, A: WrittenAction>(
    code: u8,
    clauses: &[Clause<R, A>],
    default: A,
    out: &mut [u8],
) -> Result<usize, WriteError>
    ensures answer { result ≡ write_answer (length clauses.now) out.old (file_bytes R.Written.writes A.WrittenAction.writes code clauses.now default) }
    ensures bytes { out.new ≡ written_file (length clauses.now) out.old (file_bytes R.Written.writes A.WrittenAction.writes code clauses.now default) }
    ensures back { ReadBack R.Written.writes A.WrittenAction.writes R.Recorded.reads A.RecordedAction.reads code clauses.now default }
    ensures kept { WrittenBack R.Written.writes A.WrittenAction.writes R.Recorded.reads A.RecordedAction.reads code clauses.now default }
{
    if clauses.len() > LIMIT {
        return Err(WriteError::CountAboveLimit);
    }
    let file = File {
        code,
        clauses,
        default,
    };
    write_text(&file, out).ok_or(WriteError::BufferTooShort)
}
