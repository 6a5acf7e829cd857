// Why a record or a file is refused: what is wrong, in which part, and at which byte.
ghost use Rattle.std.specs.Prelude.{◌≡◌};
ghost use Rattle.fields.specs.Faults.{fault_number, cause_number, fault_at, ends_early, fault_in};

use supplied::MakeError;

#[derive(Clone, Copy, PartialEq, Eq, Debug)]
pub enum FaultKind {
    // The bytes end where one is wanted.
    Short,
    // The family code is another.
    OtherFamily,
    // More than 64 clauses.
    CountAboveLimit,
    // More clauses than places for them, or no place at all.
    NoPlaces,
    // A bit of a map that its kind does not define.
    UndefinedBit,
    // A field that equals its absent value.
    AbsentValue,
    // The numbers of a region break a rule of its kind.
    BrokenRule(MakeError),
    // Bytes behind the default.
    SpareBytes,
}

// A fault in the bytes that a reader was given, of which so many are left from the faulty one on.
#[derive(Clone, Copy, PartialEq, Eq, Debug)]
pub struct RecordFault {
    pub kind: FaultKind,
    pub left: usize,
}

#[derive(Clone, Copy, PartialEq, Eq, Debug)]
pub enum Part {
    Head,
    Clause(usize),
    Default,
}

// A fault in a file, at a byte place counted from 0.
#[derive(Clone, Copy, PartialEq, Eq, Debug)]
pub struct Fault {
    pub kind: FaultKind,
    pub part: Part,
    pub place: usize,
}

impl RecordFault {
    // The bytes end early.
    pub fn short() -> RecordFault
        ensures { result ≡ ends_early }
    {
        RecordFault {
            kind: FaultKind::Short,
            left: 0,
        }
    }

    // A fault at the first of these bytes.
    pub fn at(kind: FaultKind, bytes: &[u8]) -> RecordFault
        ensures { result ≡ fault_at kind bytes.now }
    {
        RecordFault {
            kind,
            left: bytes.len(),
        }
    }

    // The same fault in a part of a file of so many bytes.
    pub fn in_part(self, part: Part, total: usize) -> Fault
        ensures { result ≡ fault_in total part self }
    {
        Fault {
            kind: self.kind,
            part,
            place: total.saturating_sub(self.left),
        }
    }
}

impl Fault {
    // Beside a variant that holds a value no variant has a discriminant, so the numbers stand in a match.
    pub fn number(self) -> u8
        ensures { result ≡ fault_number self.kind }
    {
        match self.kind {
            FaultKind::Short => 12,
            FaultKind::OtherFamily => 13,
            FaultKind::CountAboveLimit => 14,
            FaultKind::NoPlaces => 7,
            FaultKind::UndefinedBit => 15,
            FaultKind::AbsentValue => 16,
            FaultKind::BrokenRule(_) => 17,
            FaultKind::SpareBytes => 18,
        }
    }

    // The number of the region rule that is broken.
    pub fn cause(self) -> Option<u8>
        ensures { result ≡ cause_number self.kind }
    {
        if let FaultKind::BrokenRule(cause) = self.kind {
            Some(cause.number())
        } else {
            None
        }
    }
}
