// Examples at the edges of the supplied families.
use crate::actions::RouteAction;
use crate::errors::MakeError;
use crate::pairs::{Packet, Pair};
use crate::ranges::PrefixRange;
use crate::routes::Route;
use crate::spans::{PortSpan, ProtocolSpan, SpanPoint};
use family::{ActionKind, Edge, Family};
use std::test::Fail;

#[test]
fn longest_length_is_held(rt: HostRuntime) -> Result<(), Fail> {
    let range = PrefixRange::new(0x1400_0000, 8, 8, 24)?;
    assert!(rt; range.holds_point(Route::new(0x1401_0200, 24)?));
    assert!(rt; !range.holds_point(Route::new(0x1401_0200, 25)?));
    Ok(())
}

#[test]
fn overlapping_ranges_meet(rt: HostRuntime) -> Result<(), Fail> {
    let short = PrefixRange::new(0x1e00_0000, 8, 8, 20)?;
    let long = PrefixRange::new(0x1e00_0000, 8, 16, 32)?;
    let meet = short.meet_with(long).ok_or("no meet")?;
    assert_eq!(rt; meet.low(), 16);
    assert_eq!(rt; meet.high(), 20);
    Ok(())
}

#[test]
fn lengths_apart_do_not_meet(rt: HostRuntime) -> Result<(), Fail> {
    let short = PrefixRange::new(0x1400_0000, 8, 8, 16)?;
    let long = PrefixRange::new(0x1401_0000, 16, 17, 24)?;
    assert_eq!(rt; short.meet_with(long), None);
    Ok(())
}

#[test]
fn faults_are_told_apart(rt: HostRuntime) {
    assert_eq!(rt;
        PrefixRange::new(0x1400_0000, 8, 7, 8),
        Err(MakeError::LengthsOutOfOrder)
    );
    assert_eq!(rt;
        PrefixRange::new(0x1401_0000, 8, 8, 8),
        Err(MakeError::AddressBitAfterLength)
    );
    assert_eq!(rt; PortSpan::new(9, 8), Err(MakeError::LowAboveHigh));
    assert_eq!(rt; PortSpan::new(8, 65536), Err(MakeError::AboveTop));
}

#[test]
fn last_address_is_not_passed(rt: HostRuntime) -> Result<(), Fail> {
    let last = PrefixRange::new(0xffff_ffff, 32, 32, 32)?;
    let first = PrefixRange::first_point();
    assert!(rt; PrefixRange::whole_region().holds_point(first));
    let host = last.shift(first, 1, Edge::Near);
    let there = last.shift(host, 2, Edge::Near);
    assert!(rt; last.holds_point(there));
    assert_eq!(rt; last.shift(there, 2, Edge::Far).address(), 0xffff_ffff);
    assert_eq!(rt; last.shift(there, 1, Edge::Far).length(), 32);
    Ok(())
}

#[test]
fn top_is_not_passed(rt: HostRuntime) -> Result<(), Fail> {
    let whole = ProtocolSpan::new(0, 255)?;
    let six = SpanPoint::new(6)?;
    assert_eq!(rt; whole.shift(six, 1, Edge::Far).value(), 6);
    let low = ProtocolSpan::new(0, 254)?;
    assert_eq!(rt; low.shift(six, 1, Edge::Far).value(), 255);
    Ok(())
}

type TwoPackets = Pair<Packet, Packet>;

#[test]
fn more_than_four_axes_leave_the_point(rt: HostRuntime) {
    let whole = TwoPackets::whole_region();
    let first = TwoPackets::first_point();
    assert_eq!(rt; TwoPackets::axis_count(), 5);
    assert_eq!(rt; Packet::axis_count(), 3);
    let moved = whole.shift(first, 1, Edge::Far);
    assert_eq!(rt; moved.first.first.value(), 0);
}

#[test]
fn preference_of_a_hundred_is_not_absence(rt: HostRuntime) {
    let hundred = RouteAction::Accept {
        preference: Some(100),
        med: None,
    };
    let absent = RouteAction::Accept {
        preference: None,
        med: None,
    };
    assert!(rt; !hundred.is_alike(absent));
}
