// Filters of routes with origin: prefix ranges with spans of AS numbers, and route actions.
use crate::draws::{Draw, DrawAction, Draws, Grid, last_digit};
use crate::packets::draw_span;
use crate::trials::trials;
use std::test::Fail;
use supplied::{Pair, PrefixRange, Route, RouteAction, RouteWithOrigin, SpanPoint};

// The prefixes that are drawn, and the lengths and AS numbers that ranges and spans of them end at.
const PREFIXES: [(u32, u8); 10] = [
    (0, 0),
    (0, 1),
    (0x8000_0000, 1),
    (0x1400_0000, 8),
    (0x1400_0000, 9),
    (0x1480_0000, 9),
    (0x1401_0000, 16),
    (0x1401_0200, 24),
    (0x1401_0203, 32),
    (0xffff_ffff, 32),
];

const LENGTH_ENDS: [u8; 8] = [0, 1, 8, 9, 16, 24, 31, 32];

const AS_ENDS: [u32; 6] = [0, 1, 5, 64512, 0xffff_fffe, 0xffff_ffff];

// The ends and the number behind each, and the first address of each prefix and the one behind its last: for one length
// and along one axis the ranges drawn change nowhere else, so the least number of each combination of them is here.
const LENGTHS: [u8; 12] = [0, 1, 2, 8, 9, 10, 16, 17, 24, 25, 31, 32];

const ADDRESSES: [u32; 12] = [
    0,
    0x1400_0000,
    0x1401_0000,
    0x1401_0200,
    0x1401_0203,
    0x1401_0204,
    0x1401_0300,
    0x1402_0000,
    0x1480_0000,
    0x1500_0000,
    0x8000_0000,
    0xffff_ffff,
];

const AS_NUMBERS: [u32; 9] = [0, 1, 2, 5, 6, 64512, 64513, 0xffff_fffe, 0xffff_ffff];

fn draw_range(draws: &mut Draws) -> Option<PrefixRange> {
    let (address, length) = draws.pick(&PREFIXES)?;
    let a = draws.pick(&LENGTH_ENDS)?;
    let b = draws.pick(&LENGTH_ENDS)?;
    PrefixRange::new(address, length, a.min(b).max(length), a.max(b).max(length)).ok()
}

impl Draw for RouteWithOrigin {
    fn draw(draws: &mut Draws) -> Option<RouteWithOrigin> {
        let first = draw_range(draws)?;
        let second = draw_span(draws, &AS_ENDS)?;
        Some(Pair { first, second })
    }
}

impl Grid for RouteWithOrigin {
    const LENGTH: usize = ADDRESSES.len() * LENGTHS.len() * AS_NUMBERS.len();

    // An address with a bit after the length makes no route: the first address of a prefix, and the one behind its last, have
    // none for the lengths that the prefix allows.
    fn grid_point(number: usize) -> Option<Pair<Route, SpanPoint<4294967295>>> {
        let (address, number) = last_digit(number, &ADDRESSES)?;
        let (length, number) = last_digit(number, &LENGTHS)?;
        let (origin, _) = last_digit(number, &AS_NUMBERS)?;
        let first = Route::new(address, length).ok()?;
        let second = SpanPoint::new(origin).ok()?;
        Some(Pair { first, second })
    }
}

// An absent number, 0 or 100.
fn draw_number(draws: &mut Draws) -> Option<u32> {
    if draws.once_in(2) {
        return None;
    }
    draws.pick(&[0, 100])
}

impl DrawAction for RouteAction {
    fn draw_action(draws: &mut Draws) -> RouteAction {
        if draws.once_in(2) {
            return RouteAction::Reject;
        }
        RouteAction::Accept {
            preference: draw_number(draws),
            med: draw_number(draws),
        }
    }
}

#[test]
fn filters_of_routes_with_origin(rt: HostRuntime) -> Result<(), Fail> {
    let tally = trials::<RouteWithOrigin, RouteAction>(&rt, 20_000)?;
    assert!(rt; tally.compared > 19_000 && tally.alike > 2_000 && tally.rows > 40_000);
    Ok(())
}
