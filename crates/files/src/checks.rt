// Whether a file is good: one of prefix ranges, one of prefix ranges with an origin AS, or one of packets.
ghost use Rattle.std.specs.Prelude.{◌≡◌, length};
ghost use Rattle.filterfile.specs.Files.{file_of};
ghost use Rattle.filter.specs.Views.{load_answer};
ghost use Rattle.files.specs.Checked.{checked};

use crate::codes::{PACKETS, PREFIX_RANGES, ROUTES_WITH_ORIGIN};
use crate::comparing::CLAUSE_PLACES;
use family::Clause;
use fields::Fault;
use filter::Draft;
use records::{Recorded, RecordedAction};
use supplied::{Packet, PrefixRange, RouteAction, RouteWithOrigin, Verdict};

// What a load of the file into these places answers. They are lent: an array of a type parameter might be too large.
fn load<R: Recorded, A: RecordedAction>(
    code: u8,
    file: &[u8],
    places: &mut [Clause<R, A>],
) -> Result<(), Fault>
    ensures { result ≡ load_answer (file_of R.Recorded.reads A.RecordedAction.reads code (length places.old) file.now) }
{
    Draft::new(places).load(code, file)
}

// Whether a file can be loaded, or its first fault. Its first byte tells the family; a file with no code of a family is
// read as one of prefix ranges, and so refused.
pub fn check(file: &[u8]) -> Result<(), Fault>
    ensures { result ≡ checked file.now }
{
    match file {
        [ROUTES_WITH_ORIGIN, ..] => load::<RouteWithOrigin, RouteAction>(
            ROUTES_WITH_ORIGIN,
            file,
            &mut [Clause::default(); CLAUSE_PLACES],
        ),
        [PACKETS, ..] => load::<Packet, Verdict>(
            PACKETS,
            file,
            &mut [Clause::default(); CLAUSE_PLACES],
        ),
        _ => load::<PrefixRange, RouteAction>(
            PREFIX_RANGES,
            file,
            &mut [Clause::default(); CLAUSE_PLACES],
        ),
    }
}
