// The region list, the rows and the holes that a comparison wrote, and which rows hold a point.
use crate::draws::Grid;
use compare::{Row, compare};
use family::{ActionKind, Family};
use filter::Sealed;
use std::alloc::{AllocError, Global};

#[derive(Drop)]
pub struct Listing<R> {
    pub regions: Vec<R>,
    pub rows: Vec<Row>,
    pub holes: Vec<usize>,
}

impl<R: Family> Listing<R> {
    // What a comparison writes in 256 places for regions, 256 for rows and 1,024 for holes; none where it is declined.
    pub fn of<A: ActionKind>(
        alloc: Global,
        left: &Sealed<R, A>,
        right: &Sealed<R, A>,
    ) -> Result<Option<Listing<R>>, AllocError> {
        let mut regions = vec![in alloc; R::whole_region(); 256]?;
        let mut rows = vec![in alloc; Row::default(); 256]?;
        let mut holes = vec![in alloc; 0; 1024]?;
        let Ok(report) = compare(left, right, &mut regions, &mut rows, &mut holes) else {
            return Ok(None);
        };
        regions.truncate(report.regions);
        rows.truncate(report.rows);
        holes.truncate(report.holes);
        Ok(Some(Listing {
            regions,
            rows,
            holes,
        }))
    }

    // Whether the row's region holds the point and none of its holes does: the tests' own search, which must not be the
    // product's.
    // A hole that is no region's number counts as one that does.
    pub fn is_in(&self, row: &Row, point: R::Point) -> bool {
        let end = row.start.saturating_add(row.number);
        let (Some(region), Some(holes)) = (
            self.regions.get(row.region),
            self.holes.get(row.start..end),
        ) else {
            return false;
        };
        region.holds_point(point)
            && !holes.iter().any(|hole| {
                self.regions
                    .get(*hole)
                    .is_none_or(|region| region.holds_point(point))
            })
    }

    // Whether the rows stand in order, and their holes one row after the other in all places.
    pub fn rows_are_in_order(&self) -> bool {
        let end = self.rows.iter().try_fold(0, |start: usize, row| {
            (row.start == start).then_some(start.saturating_add(row.number))
        });
        end == Some(self.holes.len()) && self.rows.is_sorted_by(|a, b| order(a) < order(b))
    }
}

impl<R: Grid> Listing<R> {
    // Whether each row holds a point of the grid.
    pub fn rows_are_met(&self) -> bool {
        self.rows.iter().all(|row| {
            (0..R::LENGTH)
                .filter_map(|number| R::grid_point(number))
                .any(|point| self.is_in(row, point))
        })
    }
}

// What rows are ordered by.
fn order(row: &Row) -> (usize, usize, usize) {
    (row.left, row.right, row.region)
}
