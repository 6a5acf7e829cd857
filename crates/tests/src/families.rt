// The three families whose filters stand in files.
ghost use Rattle.std.specs.Prelude.{◌<◌};

use records::{Written, WrittenAction};
use std::fmt::Debug;
use supplied::{Packet, PrefixRange, RouteAction, RouteWithOrigin, Verdict};

// A family with the kind of action and the code of its files. What holds for all three stands in one generic function, which
// a test calls for each of them: types cannot stand in a list.
pub trait Filed: Written + PartialEq + Debug {
    type Action: WrittenAction + PartialEq + Debug;

    // There is a code below it and one above: a fn, since a const takes no clause.
    fn code() -> u8
        ensures above { 0 < result }
        ensures below { result < 255 };

    // A file of two clauses and a default, with fields left out and fields given.
    const SAMPLE: &'static [u8];
}

impl Filed for PrefixRange {
    type Action = RouteAction;

    fn code() -> u8 {
        1
    }

    // 20.0.0.0/8 8-24 rejected, 30.0.0.0/8 16-32 accepted with local preference 100, else accepted with MED 0.
    const SAMPLE: &'static [u8] =
        b"\x01\x02\x0b\x14\x00\x00\x00\x08\x18\x00\x0f\x1e\x00\x00\x00\x08\x10\x20\x03\x00\x00\x00\x64\x05\x00\x00\x00\x00";
}

impl Filed for RouteWithOrigin {
    type Action = RouteAction;

    fn code() -> u8 {
        2
    }

    // 20.0.0.0/8 8-24 of the origins 65000 to 65010 rejected, every route accepted with 200 and 50.
    const SAMPLE: &'static [u8] =
        b"\x02\x02\x0b\x14\x00\x00\x00\x08\x18\x03\x00\x00\xfd\xe8\x00\x00\xfd\xf2\x00\x08\x20\x00\x07\x00\x00\x00\xc8\x00\x00\x00\x32\x01";
}

impl Filed for Packet {
    type Action = Verdict;

    fn code() -> u8 {
        3
    }

    // Packets to 10.0.0.0 and on, protocol 6, port 22, accepted; protocols up to 17, ports from 1024 on, rejected.
    const SAMPLE: &'static [u8] =
        b"\x03\x02\x03\x0a\x00\x00\x00\x0a\xff\xff\xff\x03\x06\x06\x03\x00\x16\x00\x16\x01\x00\x02\x11\x01\x04\x00\x00\x01";
}
