// Comparisons with few places, and over families with three axes and more.
use compare::{Declined, Report, Row, compare};
use family::{ActionKind, Clause, Family};
use filter::{Draft, Sealed};
use std::test::Fail;
use supplied::{MakeError, Packet, Pair, PrefixRange, RouteAction, Span, Verdict};

// A filter that rejects 30.0.0.0/8 with lengths from low to high and accepts the rest, in the places that are lent.
fn rejecting(
    places: &mut [Clause<PrefixRange, RouteAction>],
    low: u8,
    high: u8,
) -> Result<Sealed<'_, PrefixRange, RouteAction>, Fail> {
    let region = PrefixRange::new(0x1e000000, 8, low, high)?;
    let mut draft = Draft::new(places);
    draft.insert(
        0,
        Clause {
            region,
            action: RouteAction::Reject,
        },
    )?;
    draft.set_default(RouteAction::Accept {
        preference: None,
        med: None,
    })?;
    Ok(draft.seal())
}

#[test]
fn places_for_regions_rows_and_holes(rt: HostRuntime) -> Result<(), Fail> {
    let mut left_places = [Clause::default(); 2];
    let mut right_places = [Clause::default(); 2];
    let left = rejecting(&mut left_places, 8, 20)?;
    let right = rejecting(&mut right_places, 16, 32)?;
    let report = Report {
        regions: 4,
        rows: 2,
        holes: 2,
    };
    for (regions, rows, holes, answer) in [
        (0, 2, 2, Err(9)),
        (3, 2, 2, Err(9)),
        (4, 1, 2, Err(10)),
        (4, 0, 0, Err(10)),
        (4, 2, 1, Err(11)),
        (4, 2, 2, Ok(report)),
    ] {
        let told = compare(
            &left,
            &right,
            &mut vec![in rt.alloc(); PrefixRange::whole_region(); regions]?,
            &mut vec![in rt.alloc(); Row::default(); rows]?,
            &mut vec![in rt.alloc(); 0; holes]?,
        );
        assert_eq!(rt;
            told.map_err(Declined::number),
            answer,
            "in {regions}, {rows} and {holes} places"
        );
    }
    Ok(())
}

// Packets to addresses low to high, of all protocols, to ports from first to last.
fn packets(
    low: u32,
    high: u32,
    first: u32,
    last: u32,
) -> Result<Clause<Packet, Verdict>, MakeError> {
    let address = Span::new(low, high)?;
    let port = Span::new(first, last)?;
    Ok(Clause {
        region: Pair {
            first: address,
            second: Pair {
                first: Span::whole_region(),
                second: port,
            },
        },
        action: Verdict::Accept,
    })
}

#[test]
fn packets_over_three_axes(rt: HostRuntime) -> Result<(), Fail> {
    // Every place accepts before the drafts are made, so that a default that is not written shows.
    let place = packets(0, 9, 0, 9)?;
    let mut left_places = [place; 3];
    let mut right_places = [place; 4];
    let mut left = Draft::new(&mut left_places);
    let mut right = Draft::new(&mut right_places);
    // One block of addresses and ports against the same block in two halves and one packet more.
    left.insert(0, packets(0, 9, 0, 9)?)?;
    right.insert(0, packets(0, 4, 0, 9)?)?;
    right.insert(1, packets(5, 9, 0, 9)?)?;
    right.insert(2, packets(10, 10, 9, 9)?)?;
    let mut regions = [Packet::whole_region(); 8];
    let mut rows = [Row::default(); 8];
    let mut holes = [0; 8];
    let report = compare(
        &left.seal(),
        &right.seal(),
        &mut regions,
        &mut rows,
        &mut holes,
    )?;
    // The block's own cell is empty; only the one packet is treated unlike: by the default, and by the third clause.
    let expected = Report {
        regions: 5,
        rows: 1,
        holes: 0,
    };
    assert_eq!(rt; report, expected);
    let [row, ..] = rows;
    assert_eq!(rt; (row.left, row.right, row.region), (1, 2, 4));
    Ok(())
}

// An empty filter compared with itself, with no place for anything.
fn empty_with_itself<R: Family, A: ActionKind>() -> Result<Report, Declined> {
    let mut places = [];
    let filter = Draft::<R, A>::new(&mut places).seal();
    compare(&filter, &filter, &mut [], &mut [], &mut [])
}

#[test]
fn more_than_four_axes_are_declined_first(rt: HostRuntime) {
    assert_eq!(rt;
        empty_with_itself::<Pair<Packet, Packet>, Verdict>().map_err(Declined::number),
        Err(8)
    );
    assert_eq!(rt;
        empty_with_itself::<Packet, Verdict>().map_err(Declined::number),
        Err(9)
    );
}
