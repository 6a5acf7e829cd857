// What rowlist prints for two files, example by example.
use files::printed;
use std::process::Abort;
use std::test::Fail;

// The two files print the text.
fn prints(
    rt: &(impl Abort + AllocGlobal),
    left: &[u8],
    right: &[u8],
    text: &[u8],
) -> Result<(), Fail> {
    let told = printed(rt.alloc(), left, right)?;
    assert_eq!(rt; told.as_slice(), text);
    Ok(())
}

#[test]
fn listings(rt: HostRuntime) -> Result<(), Fail> {
    // One range is shorter on the right.
    prints(
        &rt,
        b"\x01\x01\x0b\x14\x00\x00\x00\x08\x18\x00\x01",
        b"\x01\x01\x0b\x14\x00\x00\x00\x08\x10\x00\x01",
        b"rows 1\n0 d 20.0.0.0/8 8-24 - 20.0.0.0/8 8-16\n",
    )?;
    // A range of length 1 that its two halves cover: its cell is empty.
    prints(
        &rt,
        b"\x01\x01\x04\x01\x00\x01",
        b"\x01\x02\x02\x01\x00\x03\x80\x00\x00\x00\x01\x00\x01",
        b"rows 0\n",
    )?;
    // Two empty filters whose defaults differ.
    prints(
        &rt,
        b"\x01\x00\x00",
        b"\x01\x00\x01",
        b"rows 1\nd d 0.0.0.0/0 0-32\n",
    )?;
    // Two ranges that overlap in their lengths.
    prints(
        &rt,
        b"\x01\x01\x0b\x1e\x00\x00\x00\x08\x14\x00\x01",
        b"\x01\x01\x0f\x1e\x00\x00\x00\x08\x10\x20\x00\x01",
        b"rows 2\n0 d 30.0.0.0/8 8-20 - 30.0.0.0/8 16-20\nd 0 30.0.0.0/8 16-32 - 30.0.0.0/8 16-20\n",
    )?;
    // A local preference of 100 is not alike to an absent one.
    prints(
        &rt,
        b"\x01\x00\x03\x00\x00\x00\x64",
        b"\x01\x00\x01",
        b"rows 1\nd d 0.0.0.0/0 0-32\n",
    )?;
    // The same file twice.
    prints(
        &rt,
        b"\x01\x01\x0b\x14\x00\x00\x00\x08\x18\x00\x01",
        b"\x01\x01\x0b\x14\x00\x00\x00\x08\x18\x00\x01",
        b"rows 0\n",
    )
}

#[test]
fn refusals(rt: HostRuntime) -> Result<(), Fail> {
    let good = b"\x01\x00\x01";
    // A missing file counts as empty, and ends early.
    prints(&rt, b"", good, b"left 12 0\n")?;
    prints(&rt, good, b"", b"right 12 0\n")?;
    // The left file is read first.
    prints(&rt, b"", b"", b"left 12 0\n")?;
    // A file cut short inside an address.
    prints(&rt, b"\x01\x01\x0b\x14\x00", good, b"left 12 5\n")?;
    // Another family, and a count above 64.
    prints(&rt, b"\x02", good, b"left 13 0\n")?;
    prints(&rt, good, b"\x01\x41", b"right 14 1\n")?;
    // An undefined bit of a region's map, and of an action's without accept.
    prints(&rt, b"\x01\x01\x10\x00\x01", good, b"left 15 2\n")?;
    prints(&rt, good, b"\x01\x00\x02\x00\x00\x00\x00", b"right 15 2\n")?;
    // A field at its absent value: the address 0, and a high that is low.
    prints(
        &rt,
        b"\x01\x01\x01\x00\x00\x00\x00\x00\x01",
        good,
        b"left 16 3\n",
    )?;
    prints(
        &rt,
        good,
        b"\x01\x01\x0b\x14\x00\x00\x00\x08\x08\x00\x01",
        b"right 16 8\n",
    )?;
    // A broken region rule is told at the map: a bit after the length, and low under the length.
    prints(
        &rt,
        b"\x01\x01\x03\x14\x01\x00\x00\x08\x00\x01",
        good,
        b"left 17 2\n",
    )?;
    prints(
        &rt,
        b"\x01\x01\x07\x14\x00\x00\x00\x08\x07\x00\x01",
        good,
        b"left 17 2\n",
    )?;
    // Bytes left over.
    prints(&rt, good, b"\x01\x00\x01\x00", b"right 18 3\n")
}
