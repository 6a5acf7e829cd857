// rowlist: compares left.flt and right.flt and prints the routes that the two filters treat unlike.
#![tactic(auto)]

use files::printed;
use std::io::Write;
use std::{fs, io};

fn main(rt: HostRuntime) -> io::Result<()> {
    // A file that cannot be read counts as empty.
    let read = |path| fs::read(&rt, path).unwrap_or(Vec::new(rt.alloc()));
    let text = printed(rt.alloc(), &read("left.flt"), &read("right.flt"))?;
    rt.stdout().write_all(&text)
}
