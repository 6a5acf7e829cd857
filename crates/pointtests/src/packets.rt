// Packet filters: spans of addresses, protocols and ports, and verdicts.
use crate::draws::{Draw, DrawAction, Draws, Grid, last_digit};
use crate::trials::trials;
use family::Family;
use std::test::Fail;
use supplied::{Packet, Pair, Span, SpanPoint, Verdict};

// The ends that are drawn.
const ADDRESS_ENDS: [u32; 7] = [0, 1, 5, 255, 256, 0xffff_fffe, 0xffff_ffff];

const PROTOCOL_ENDS: [u32; 6] = [0, 1, 6, 17, 254, 255];

const PORT_ENDS: [u32; 7] = [0, 1, 80, 1023, 1024, 65534, 65535];

// The ends and the number behind each: along one axis the spans drawn change nowhere else, so the least number of each
// combination of spans is here.
const ADDRESSES: [u32; 10] = [0, 1, 2, 5, 6, 255, 256, 257, 0xffff_fffe, 0xffff_ffff];

const PROTOCOLS: [u32; 9] = [0, 1, 2, 6, 7, 17, 18, 254, 255];

const PORTS: [u32; 10] = [0, 1, 2, 80, 81, 1023, 1024, 1025, 65534, 65535];

// A span between two of the ends; now and then the whole.
pub fn draw_span<const TOP: u32>(draws: &mut Draws, ends: &[u32]) -> Option<Span<TOP>> {
    if draws.once_in(4) {
        return Some(Span::<TOP>::whole_region());
    }
    let a = draws.pick(ends)?;
    let b = draws.pick(ends)?;
    Span::<TOP>::new(a.min(b), a.max(b)).ok()
}

impl Draw for Packet {
    fn draw(draws: &mut Draws) -> Option<Packet> {
        let address = draw_span(draws, &ADDRESS_ENDS)?;
        let protocol = draw_span(draws, &PROTOCOL_ENDS)?;
        let port = draw_span(draws, &PORT_ENDS)?;
        Some(Pair {
            first: address,
            second: Pair {
                first: protocol,
                second: port,
            },
        })
    }
}

impl Grid for Packet {
    const LENGTH: usize = ADDRESSES.len() * PROTOCOLS.len() * PORTS.len();

    fn grid_point(
        number: usize,
    ) -> Option<Pair<SpanPoint<4294967295>, Pair<SpanPoint<255>, SpanPoint<65535>>>> {
        let (address, number) = last_digit(number, &ADDRESSES)?;
        let (protocol, number) = last_digit(number, &PROTOCOLS)?;
        let (port, _) = last_digit(number, &PORTS)?;
        Some(Pair {
            first: SpanPoint::new(address).ok()?,
            second: Pair {
                first: SpanPoint::new(protocol).ok()?,
                second: SpanPoint::new(port).ok()?,
            },
        })
    }
}

impl DrawAction for Verdict {
    fn draw_action(draws: &mut Draws) -> Verdict {
        if draws.once_in(2) {
            Verdict::Accept
        } else {
            Verdict::Reject
        }
    }
}

#[test]
fn packet_filters(rt: HostRuntime) -> Result<(), Fail> {
    let tally = trials::<Packet, Verdict>(&rt, 20_000)?;
    assert!(rt; tally.compared > 19_000 && tally.alike > 2_000 && tally.rows > 40_000);
    Ok(())
}
