// Two files of prefix ranges with route actions, read and compared.
ghost use Rattle.std.specs.Prelude.{◌≡◌, MatchResult};
ghost use Rattle.supplied.specs.Actions.{rejected};
ghost use Rattle.filter.specs.States.{sealed_view};
ghost use Rattle.files.specs.Compared.{file_read, ReadAs, text_found, filters_compared, files_compared};

use crate::codes::PREFIX_RANGES;
use crate::refusals::Refusal;
use compare::{Row, compare};
use family::Clause;
use fields::Fault;
use filter::{Draft, Sealed};
use listing::Listing;
use supplied::{PrefixRange, RouteAction};

// The places that the longest file needs: 64 for clauses, and one for the default.
pub(crate) const CLAUSE_PLACES: usize = 65;

pub(crate) const REGION_PLACES: usize = 1024;

pub(crate) const ROW_PLACES: usize = 1024;

pub(crate) const HOLE_PLACES: usize = 4096;

// The filter of a file, in lent places.
fn read_filter<'a>(
    file: &[u8],
    places: &'a mut [Clause<PrefixRange, RouteAction>; CLAUSE_PLACES],
) -> Result<Sealed<'a, PrefixRange, RouteAction>, Fault>
    ensures { MatchResult result (λ filter. ReadAs file.now (sealed_view rejected filter)) (λ fault. file_read file.now ≡ Err fault) }
{
    let mut draft = Draft::new(places);
    draft.load(PREFIX_RANGES, file)?;
    Ok(draft.seal())
}

// The places for the regions, rows and holes of a comparison: arrays, since the calls for C have no heap.
// Who compares writes the literal: what a function answers is copied, and so needs the stack twice.
#[derive(Drop)]
pub(crate) struct Memory {
    pub regions: [PrefixRange; REGION_PLACES],
    pub rows: [Row; ROW_PLACES],
    pub holes: [usize; HOLE_PLACES],
}

impl Memory {
    fn compare_filters(
        &mut self,
        left: &Sealed<PrefixRange, RouteAction>,
        right: &Sealed<PrefixRange, RouteAction>,
    ) -> Result<Listing<'_>, Refusal>
        ensures { text_found result ≡ filters_compared (sealed_view rejected left.now) (sealed_view rejected right.now) }
    {
        let report = compare(
            left,
            right,
            &mut self.regions,
            &mut self.rows,
            &mut self.holes,
        )
        .map_err(Refusal::Comparison)?;
        Ok(Listing {
            regions: &self.regions[..report.regions],
            rows: &self.rows[..report.rows],
            holes: &self.holes[..report.holes],
            left_clauses: left.clauses().len(),
            right_clauses: right.clauses().len(),
        })
    }

    // Reads the left file, then the right one, and compares them. Through all calls the two files are two
    // parameters, as the call for C takes them.
    pub(crate) fn compare_files(
        &mut self,
        left: &[u8],
        right: &[u8],
    ) -> Result<Listing<'_>, Refusal>
        ensures { text_found result ≡ files_compared left.now right.now }
    {
        let mut left_places = [Clause::default(); CLAUSE_PLACES];
        let mut right_places = [Clause::default(); CLAUSE_PLACES];
        let left = read_filter(left, &mut left_places).map_err(Refusal::Left)?;
        let right = read_filter(right, &mut right_places).map_err(Refusal::Right)?;
        self.compare_filters(&left, &right)
    }
}
