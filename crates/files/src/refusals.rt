// Why two files give no listing, and why one is not written.
ghost use Rattle.std.specs.Prelude.{◌≡◌};
ghost use Rattle.files.specs.Refusals.{refusal_number, unwritten_number, line_of};
ghost use Rattle.files.specs.declared.refusals.Unwritten.TheVariants.{Refused};

use fields::Fault;
use listing::Declined;

// The fault of the left file, else that of the right one, else the reason for which the comparison is declined.
#[derive(Clone, Copy)]
pub enum Refusal {
    Left(Fault),
    Right(Fault),
    Comparison(compare::Declined),
}

impl Refusal {
    // By match: the variants hold values, and so have no numbers of their own.
    pub fn number(self) -> u8
        ensures { result ≡ refusal_number self }
    {
        match self {
            Refusal::Left(fault) => fault.number(),
            Refusal::Right(fault) => fault.number(),
            Refusal::Comparison(declined) => declined.number(),
        }
    }
}

// What the line of a refusal tells.
impl From<Refusal> for Declined {
    ghost from_gives = { λ refusal declined. declined ≡ line_of refusal };

    fn from(refusal: Refusal) -> Declined {
        match refusal {
            Refusal::Left(fault) => Declined::Left {
                number: fault.number(),
                place: fault.place,
            },
            Refusal::Right(fault) => Declined::Right {
                number: fault.number(),
                place: fault.place,
            },
            Refusal::Comparison(declined) => Declined::Comparison {
                number: declined.number(),
            },
        }
    }
}

// There is no listing, or it is too long for the buffer.
#[derive(Clone, Copy)]
pub enum Unwritten {
    Refused(Refusal),
    TooLong,
}

impl Unwritten {
    // By match, as a refusal's.
    pub fn number(self) -> u8
        ensures { result ≡ unwritten_number self }
    {
        match self {
            Unwritten::Refused(refusal) => refusal.number(),
            Unwritten::TooLong => 19,
        }
    }
}

// Where there is no listing, none is written.
impl From<Refusal> for Unwritten {
    ghost from_gives = { λ refusal unwritten. unwritten ≡ Refused refusal };

    fn from(refusal: Refusal) -> Unwritten {
        Unwritten::Refused(refusal)
    }
}
