// Files loaded into a draft: what each fault tells, and that a refused file leaves the draft as it was.
use crate::families::Filed;
use crate::writing::writes;
use family::Clause;
use fields::{Fault, Part};
use filter::{Draft, Sealed};
use std::process::Abort;
use std::test::Fail;
use supplied::{Packet, Pair, PrefixRange, RouteAction, RouteWithOrigin, Verdict};

// What a refused load tells.
#[derive(Clone, Copy, PartialEq, Eq, Debug)]
struct Told {
    number: u8,
    part: Part,
    place: usize,
    cause: Option<u8>,
}

impl From<Fault> for Told {
    fn from(fault: Fault) -> Told {
        Told {
            number: fault.number(),
            part: fault.part,
            place: fault.place,
            cause: fault.cause(),
        }
    }
}

// Any other fault than a broken rule.
fn unbroken(number: u8, part: Part, place: usize) -> Told {
    Told {
        number,
        part,
        place,
        cause: None,
    }
}

fn head(number: u8, place: usize) -> Told {
    unbroken(number, Part::Head, place)
}

fn clause(clause: usize, number: u8, place: usize) -> Told {
    unbroken(number, Part::Clause(clause), place)
}

fn default(number: u8, place: usize) -> Told {
    unbroken(number, Part::Default, place)
}

// A region that breaks the rule of this number.
fn broken(clause: usize, place: usize, cause: u8) -> Told {
    Told {
        number: 17,
        part: Part::Clause(clause),
        place,
        cause: Some(cause),
    }
}

// A draft that holds the sample refuses the file, and holds the sample still.
fn refused<F: Filed>(rt: &(impl Abort + AllocGlobal), file: &[u8], told: Told) -> Result<(), Fail> {
    let mut places = vec![in rt.alloc(); Clause::default(); 3]?;
    let mut draft = Draft::new(&mut places);
    draft.load(F::code(), F::SAMPLE)?;
    assert_eq!(rt; draft.load(F::code(), file).map_err(Told::from), Err(told));
    writes::<F>(rt, &draft.seal(), F::SAMPLE)
}

fn refused_heads<F: Filed>(rt: &(impl Abort + AllocGlobal)) -> Result<(), Fail> {
    let code = F::code();
    refused::<F>(rt, b"", head(12, 0))?;
    refused::<F>(rt, &[code], head(12, 1))?;
    refused::<F>(rt, &[code - 1], head(13, 0))?;
    refused::<F>(rt, &[code + 1, 65], head(13, 0))?;
    refused::<F>(rt, &[255, 0, 0], head(13, 0))?;
    refused::<F>(rt, &[code, 65], head(14, 1))?;
    refused::<F>(rt, &[code, 255, 16], head(14, 1))
}

#[test]
fn heads(rt: HostRuntime) -> Result<(), Fail> {
    refused_heads::<PrefixRange>(&rt)?;
    refused_heads::<RouteWithOrigin>(&rt)?;
    refused_heads::<Packet>(&rt)
}

// Each beginning of the sample ends early; its clauses end at these places.
fn cut<F: Filed>(rt: &(impl Abort + AllocGlobal), first: usize, second: usize) -> Result<(), Fail> {
    let file = F::SAMPLE;
    for length in 0..file.len() {
        let part = if length < 2 {
            Part::Head
        } else if length < first {
            Part::Clause(0)
        } else if length < second {
            Part::Clause(1)
        } else {
            Part::Default
        };
        refused::<F>(rt, &file[..length], unbroken(12, part, length))?;
    }
    Ok(())
}

#[test]
fn files_cut_short(rt: HostRuntime) -> Result<(), Fail> {
    cut::<PrefixRange>(&rt, 10, 23)?;
    cut::<RouteWithOrigin>(&rt, 19, 31)?;
    cut::<Packet>(&rt, 20, 27)
}

// An empty draft of so many places refuses the file and stays empty.
fn refused_in<F: Filed>(
    rt: &(impl Abort + AllocGlobal),
    room: usize,
    file: &[u8],
    told: Told,
) -> Result<(), Fail> {
    let mut places = vec![in rt.alloc(); Clause::default(); room]?;
    let mut draft = Draft::new(&mut places);
    assert_eq!(rt; draft.load(F::code(), file).map_err(Told::from), Err(told));
    writes::<F>(rt, &draft.seal(), &[F::code(), 0, 0])
}

fn without_a_place<F: Filed>(rt: &(impl Abort + AllocGlobal)) -> Result<(), Fail> {
    let code = F::code();
    refused_in::<F>(rt, 0, b"", head(12, 0))?;
    refused_in::<F>(rt, 0, &[code], head(12, 1))?;
    refused_in::<F>(rt, 0, &[code + 1, 0, 0], head(13, 0))?;
    refused_in::<F>(rt, 0, &[code, 65], head(14, 1))?;
    refused_in::<F>(rt, 0, &[code, 64], head(7, 1))?;
    refused_in::<F>(rt, 0, &[code, 0, 0], head(7, 1))
}

#[test]
fn memory_without_a_place(rt: HostRuntime) -> Result<(), Fail> {
    without_a_place::<PrefixRange>(&rt)?;
    without_a_place::<RouteWithOrigin>(&rt)?;
    without_a_place::<Packet>(&rt)
}

// One place is the default's. No room is told before a fault of a clause.
fn with_few_places<F: Filed>(rt: &(impl Abort + AllocGlobal)) -> Result<(), Fail> {
    let code = F::code();
    refused_in::<F>(rt, 1, &[code, 1], head(7, 1))?;
    refused_in::<F>(rt, 2, &[code, 2, 255], head(7, 1))?;
    refused_in::<F>(rt, 2, &[code, 1], clause(0, 12, 2))?;
    refused_in::<F>(rt, 64, &[code, 64], head(7, 1))?;
    refused_in::<F>(rt, 65, &[code, 64], clause(0, 12, 2))?;
    refused_in::<F>(rt, 70, &[code, 65], head(14, 1))
}

#[test]
fn few_places(rt: HostRuntime) -> Result<(), Fail> {
    with_few_places::<PrefixRange>(&rt)?;
    with_few_places::<RouteWithOrigin>(&rt)?;
    with_few_places::<Packet>(&rt)
}

// So many clauses with every field left out, which take two bytes, three or four, then the default and spare bytes.
fn zeros(code: u8, count: u8) -> [u8; 263] {
    let mut file = [0; 263];
    file[0] = code;
    file[1] = count;
    file
}

// 65 clauses are too many, and 64 are read up to a spare byte at this place.
fn counts<F: Filed>(rt: &(impl Abort + AllocGlobal), place: usize) -> Result<(), Fail> {
    let code = F::code();
    refused_in::<F>(rt, 64, &zeros(code, 64), head(7, 1))?;
    refused_in::<F>(rt, 65, &zeros(code, 65), head(14, 1))?;
    refused_in::<F>(rt, 70, &zeros(code, 65), head(14, 1))?;
    refused_in::<F>(rt, 65, &zeros(code, 64), default(18, place))
}

#[test]
fn counts_64_and_65(rt: HostRuntime) -> Result<(), Fail> {
    counts::<PrefixRange>(&rt, 131)?;
    counts::<RouteWithOrigin>(&rt, 195)?;
    counts::<Packet>(&rt, 259)
}

#[test]
fn undefined_bits_of_regions(rt: HostRuntime) -> Result<(), Fail> {
    refused::<PrefixRange>(&rt, &[1, 1, 255], clause(0, 15, 2))?;
    refused::<RouteWithOrigin>(&rt, &[2, 1, 0, 255], clause(0, 15, 3))?;
    refused::<Packet>(&rt, &[3, 1, 0, 0, 255], clause(0, 15, 4))?;
    for map in 16..255 {
        refused::<PrefixRange>(&rt, &[1, 1, map, 0, 0], clause(0, 15, 2))?;
        refused::<PrefixRange>(&rt, &[1, 2, 8, 32, 0, map], clause(1, 15, 5))?;
        refused::<RouteWithOrigin>(&rt, &[2, 1, map, 0, 0, 0], clause(0, 15, 2))?;
    }
    for map in 4..255 {
        refused::<RouteWithOrigin>(&rt, &[2, 1, 0, map, 0, 0], clause(0, 15, 3))?;
        refused::<Packet>(&rt, &[3, 1, map, 0, 0, 0, 0], clause(0, 15, 2))?;
        refused::<Packet>(&rt, &[3, 1, 0, map, 0, 0, 0], clause(0, 15, 3))?;
        refused::<Packet>(&rt, &[3, 2, 0, 0, 0, 0, 0, 0, map], clause(1, 15, 8))?;
    }
    Ok(())
}

// An action's map that is undefined, as the default's and behind a region with every field left out.
fn undefined_action<F: Filed>(
    rt: &(impl Abort + AllocGlobal),
    map: u8,
    file: &[u8],
    place: usize,
) -> Result<(), Fail> {
    refused::<F>(rt, &[F::code(), 0, map, 0, 0, 0, 0], default(15, 2))?;
    refused::<F>(rt, file, clause(0, 15, place))
}

#[test]
fn undefined_bits_of_actions(rt: HostRuntime) -> Result<(), Fail> {
    // The numbers of a route action need the accept bit.
    for map in [2, 4, 6, 8, 9, 16, 17, 32, 33, 64, 65, 128, 129, 255] {
        undefined_action::<PrefixRange>(&rt, map, &[1, 1, 0, map, 0], 3)?;
        undefined_action::<RouteWithOrigin>(&rt, map, &[2, 1, 0, 0, map, 0], 4)?;
    }
    for map in 2..=255 {
        undefined_action::<Packet>(&rt, map, &[3, 1, 0, 0, 0, map, 0], 5)?;
    }
    Ok(())
}

#[test]
fn prefix_range_fields_at_their_absent_values(rt: HostRuntime) -> Result<(), Fail> {
    refused::<PrefixRange>(
        &rt,
        b"\x01\x01\x01\x00\x00\x00\x00\x00\x01",
        clause(0, 16, 3),
    )?;
    refused::<PrefixRange>(&rt, b"\x01\x01\x02\x00\x00\x01", clause(0, 16, 3))?;
    // Low at the prefix length, left out and given.
    refused::<PrefixRange>(&rt, b"\x01\x01\x04\x00\x00\x01", clause(0, 16, 3))?;
    refused::<PrefixRange>(&rt, b"\x01\x01\x06\x08\x08\x00\x01", clause(0, 16, 4))?;
    refused::<PrefixRange>(
        &rt,
        b"\x01\x02\x08\x20\x00\x0f\x1e\x00\x00\x00\x08\x08\x14\x00\x01",
        clause(1, 16, 11),
    )?;
    // High at low: both left out, low left out, both given.
    refused::<PrefixRange>(&rt, b"\x01\x01\x08\x00\x00\x01", clause(0, 16, 3))?;
    refused::<PrefixRange>(
        &rt,
        b"\x01\x01\x0b\x14\x00\x00\x00\x08\x08\x00\x01",
        clause(0, 16, 8),
    )?;
    refused::<PrefixRange>(
        &rt,
        b"\x01\x01\x0f\x1e\x00\x00\x00\x08\x10\x10\x00\x01",
        clause(0, 16, 9),
    )?;
    // Told before the file's end, and before a broken rule.
    refused::<PrefixRange>(&rt, b"\x01\x01\x01\x00\x00\x00\x00", clause(0, 16, 3))?;
    refused::<PrefixRange>(&rt, b"\x01\x01\x06\x28\x28", clause(0, 16, 4))
}

#[test]
fn ends_at_their_absent_values(rt: HostRuntime) -> Result<(), Fail> {
    // Routes with an origin: the four fields of the range, then low at 0 and high at the top, alone and behind the other.
    refused::<RouteWithOrigin>(
        &rt,
        b"\x02\x01\x01\x00\x00\x00\x00\x00\x00\x01",
        clause(0, 16, 3),
    )?;
    refused::<RouteWithOrigin>(&rt, b"\x02\x01\x02\x00", clause(0, 16, 3))?;
    refused::<RouteWithOrigin>(&rt, b"\x02\x01\x04\x00", clause(0, 16, 3))?;
    refused::<RouteWithOrigin>(&rt, b"\x02\x01\x08\x00", clause(0, 16, 3))?;
    refused::<RouteWithOrigin>(
        &rt,
        b"\x02\x01\x00\x01\x00\x00\x00\x00\x00\x01",
        clause(0, 16, 4),
    )?;
    refused::<RouteWithOrigin>(
        &rt,
        b"\x02\x01\x00\x02\xff\xff\xff\xff\x00\x01",
        clause(0, 16, 4),
    )?;
    refused::<RouteWithOrigin>(
        &rt,
        b"\x02\x01\x00\x03\x00\x00\x00\x05\xff\xff\xff\xff\x00\x01",
        clause(0, 16, 8),
    )?;
    refused::<RouteWithOrigin>(
        &rt,
        b"\x02\x02\x00\x00\x00\x08\x20\x03\x00\x00\x00\x00\x00\x00\x00\x05\x00\x01",
        clause(1, 16, 8),
    )?;
    // Addresses, protocols and ports.
    refused::<Packet>(
        &rt,
        b"\x03\x01\x01\x00\x00\x00\x00\x00\x00\x01\x01",
        clause(0, 16, 3),
    )?;
    refused::<Packet>(
        &rt,
        b"\x03\x01\x02\xff\xff\xff\xff\x00\x00\x01\x01",
        clause(0, 16, 3),
    )?;
    refused::<Packet>(&rt, b"\x03\x01\x00\x01\x00\x00\x01\x01", clause(0, 16, 4))?;
    refused::<Packet>(&rt, b"\x03\x01\x00\x02\xff\x00\x01\x01", clause(0, 16, 4))?;
    refused::<Packet>(
        &rt,
        b"\x03\x01\x00\x00\x01\x00\x00\x01\x01",
        clause(0, 16, 5),
    )?;
    refused::<Packet>(
        &rt,
        b"\x03\x01\x00\x00\x02\xff\xff\x01\x01",
        clause(0, 16, 5),
    )?;
    refused::<Packet>(
        &rt,
        b"\x03\x02\x00\x00\x00\x01\x00\x00\x03\x00\x16\xff\xff\x01\x01",
        clause(1, 16, 11),
    )
}

#[test]
fn prefix_ranges_that_break_a_rule(rt: HostRuntime) -> Result<(), Fail> {
    // The prefix length above 32; a bit behind it.
    refused::<PrefixRange>(&rt, b"\x01\x01\x02\x21\x00\x01", broken(0, 2, 1))?;
    refused::<PrefixRange>(
        &rt,
        b"\x01\x02\x08\x20\x00\x03\x14\x01\x00\x00\x28\x00\x01",
        broken(1, 5, 1),
    )?;
    refused::<PrefixRange>(
        &rt,
        b"\x01\x01\x03\x14\x01\x00\x00\x08\x00\x01",
        broken(0, 2, 2),
    )?;
    refused::<PrefixRange>(
        &rt,
        b"\x01\x01\x01\x14\x00\x00\x00\x00\x01",
        broken(0, 2, 2),
    )?;
    // Low below the prefix length, high below low, high above 32.
    refused::<PrefixRange>(
        &rt,
        b"\x01\x01\x07\x14\x00\x00\x00\x08\x07\x00\x01",
        broken(0, 2, 3),
    )?;
    refused::<PrefixRange>(
        &rt,
        b"\x01\x01\x0f\x1e\x00\x00\x00\x08\x10\x0f\x00\x01",
        broken(0, 2, 3),
    )?;
    refused::<PrefixRange>(
        &rt,
        b"\x01\x02\x08\x20\x00\x0a\x08\x21\x00\x01",
        broken(1, 5, 3),
    )?;
    // A broken rule is told before a fault of the action behind.
    refused::<PrefixRange>(&rt, b"\x01\x01\x02\x21\xff", broken(0, 2, 1))
}

#[test]
fn pairs_that_break_a_rule(rt: HostRuntime) -> Result<(), Fail> {
    refused::<RouteWithOrigin>(&rt, b"\x02\x01\x02\x21\x00\x00\x01", broken(0, 2, 1))?;
    refused::<RouteWithOrigin>(
        &rt,
        b"\x02\x01\x03\x14\x01\x00\x00\x08\x00\x00\x01",
        broken(0, 2, 2),
    )?;
    refused::<RouteWithOrigin>(&rt, b"\x02\x01\x06\x08\x07\x00\x00\x01", broken(0, 2, 3))?;
    // Low above high, told at the span's own map.
    refused::<RouteWithOrigin>(
        &rt,
        b"\x02\x01\x00\x03\x00\x00\x00\x0a\x00\x00\x00\x05\x00\x01",
        broken(0, 3, 4),
    )?;
    refused::<RouteWithOrigin>(
        &rt,
        b"\x02\x02\x08\x20\x00\x00\x08\x20\x03\xff\xff\xff\xff\x00\x00\x00\x00\x00\x01",
        broken(1, 8, 4),
    )?;
    refused::<Packet>(
        &rt,
        b"\x03\x01\x03\x00\x00\x00\x0a\x00\x00\x00\x05\x00\x00\x01\x01",
        broken(0, 2, 4),
    )?;
    refused::<Packet>(
        &rt,
        b"\x03\x01\x00\x03\x0a\x05\x00\x01\x01",
        broken(0, 3, 4),
    )?;
    refused::<Packet>(
        &rt,
        b"\x03\x01\x00\x00\x03\x01\x00\x00\xff\x01\x01",
        broken(0, 4, 4),
    )?;
    refused::<Packet>(
        &rt,
        b"\x03\x02\x00\x00\x00\x01\x00\x03\x0a\x05\x00\x01\x01",
        broken(1, 7, 4),
    )?;
    // The first part is judged before the second is looked at.
    refused::<RouteWithOrigin>(&rt, b"\x02\x01\x02\x21\xff", broken(0, 2, 1))?;
    refused::<Packet>(&rt, b"\x03\x01\x00\x03\x0a\x05\xff", broken(0, 3, 4))
}

fn spare_bytes_behind_the_default<F: Filed>(rt: &(impl Abort + AllocGlobal)) -> Result<(), Fail> {
    let code = F::code();
    refused::<F>(rt, &[code, 0, 0, 0], default(18, 3))?;
    refused::<F>(rt, &[code, 0, 1, 255, 0, 7], default(18, 3))
}

#[test]
fn spare_bytes(rt: HostRuntime) -> Result<(), Fail> {
    spare_bytes_behind_the_default::<PrefixRange>(&rt)?;
    spare_bytes_behind_the_default::<RouteWithOrigin>(&rt)?;
    spare_bytes_behind_the_default::<Packet>(&rt)?;
    refused::<PrefixRange>(
        &rt,
        b"\x01\x01\x08\x20\x00\x05\x00\x00\x00\x00\x09",
        default(18, 10),
    )?;
    refused::<RouteWithOrigin>(
        &rt,
        b"\x02\x01\x08\x20\x00\x00\x07\x00\x00\x00\x01\x00\x00\x00\x02\x01\x01\x01",
        default(18, 15),
    )?;
    refused::<Packet>(
        &rt,
        b"\x03\x01\x00\x00\x00\x01\x01\x00\x00\x00",
        default(18, 7),
    )
}

// The sample of routes with origin.
#[test]
fn fields_left_out_stand_at_their_absent_values(rt: HostRuntime) -> Result<(), Fail> {
    let mut places = [Clause::default(); 3];
    let mut draft = Draft::new(&mut places);
    draft.load(2, RouteWithOrigin::SAMPLE)?;
    let filter: Sealed<RouteWithOrigin, RouteAction> = draft.seal();
    let [first, second] = filter.clauses() else {
        return Err(Fail::new("not two clauses"));
    };
    let range = first.region.first;
    assert_eq!(rt; (range.address(), range.length()), (0x14000000, 8));
    assert_eq!(rt; (range.low(), range.high()), (8, 24));
    let range = second.region.first;
    assert_eq!(rt; (range.address(), range.length()), (0, 0));
    assert_eq!(rt; (range.low(), range.high()), (0, 32));
    let origins = second.region.second;
    assert_eq!(rt; (origins.low(), origins.high()), (0, 4294967295));
    Ok(())
}

// The sample of packets.
#[test]
fn ends_have_the_bytes_of_their_kind(rt: HostRuntime) -> Result<(), Fail> {
    let mut places = [Clause::default(); 3];
    let mut draft = Draft::new(&mut places);
    draft.load(3, Packet::SAMPLE)?;
    let filter: Sealed<Packet, Verdict> = draft.seal();
    let [first, second] = filter.clauses() else {
        return Err(Fail::new("not two clauses"));
    };
    let Pair {
        first: addresses,
        second: ends,
    } = first.region;
    assert_eq!(rt;
        (addresses.low(), addresses.high()),
        (0x0a000000, 0x0affffff)
    );
    assert_eq!(rt; (ends.first.low(), ends.first.high()), (6, 6));
    assert_eq!(rt; (ends.second.low(), ends.second.high()), (22, 22));
    let Pair {
        first: addresses,
        second: ends,
    } = second.region;
    assert_eq!(rt; (addresses.low(), addresses.high()), (0, 4294967295));
    assert_eq!(rt; (ends.first.low(), ends.first.high()), (0, 17));
    assert_eq!(rt; (ends.second.low(), ends.second.high()), (1024, 65535));
    Ok(())
}
