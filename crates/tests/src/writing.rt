// Sealed filters written as files: which bytes, into which buffers, and that loading them again gives the same filter.
use crate::families::Filed;
use buffers::Output;
use family::{Clause, Family};
use filter::{Draft, Sealed};
use filterfile::{WriteError, write_file};
use records::Written;
use std::process::Abort;
use std::test::Fail;
use supplied::{
    AddressSpan, AsSpan, Packet, Pair, PortSpan, PrefixRange, ProtocolSpan, RouteAction,
    RouteWithOrigin, Verdict,
};

// Whether no byte of this part of a buffer has been written.
fn is_untouched(part: &[u8]) -> bool {
    part.iter().all(|byte| *byte == 0xee)
}

// The filter is written as this file, and no byte behind it is touched.
pub fn writes<F: Filed>(
    rt: &impl Abort,
    filter: &Sealed<F, F::Action>,
    file: &[u8],
) -> Result<(), Fail> {
    let mut out = [0xee; 300];
    let length = filter.write(F::code(), &mut out)?;
    assert!(rt; length < 300);
    assert_eq!(rt; &out[..length], file);
    assert!(rt; is_untouched(&out[length..]));
    Ok(())
}

// A buffer that is a byte shorter than the file is refused and left as it was.
fn refuses_less_room<F: Filed>(rt: &impl Abort, filter: &Sealed<F, F::Action>, file: &[u8]) {
    let mut out = [0xee; 300];
    let short = file.len().saturating_sub(1).min(300);
    let answer = filter.write(F::code(), &mut out[..short]);
    assert_eq!(rt; answer.map_err(WriteError::number), Err(19));
    assert!(rt; is_untouched(&out));
}

// A buffer of the file's length takes it.
fn just_fits<F: Filed>(
    rt: &(impl Abort + AllocGlobal),
    filter: &Sealed<F, F::Action>,
    file: &[u8],
) -> Result<(), Fail> {
    let mut out = vec![in rt.alloc(); 0xee; file.len()]?;
    filter.write(F::code(), &mut out)?;
    assert_eq!(rt; out.as_slice(), file);
    Ok(())
}

// Written and loaded into other places, it is the same filter.
fn loads_again<F: Filed>(
    rt: &(impl Abort + AllocGlobal),
    filter: &Sealed<F, F::Action>,
) -> Result<(), Fail> {
    let mut out = [0; 300];
    let length = filter.write(F::code(), &mut out)?;
    assert!(rt; length <= 300);
    let mut places = vec![in rt.alloc(); Clause::default(); 65]?;
    let mut draft = Draft::new(&mut places);
    draft.load(F::code(), &out[..length])?;
    let again = draft.seal();
    assert_eq!(rt; again.default(), filter.default());
    assert_eq!(rt; again.clauses(), filter.clauses());
    Ok(())
}

// Loaded, sealed and written, it is the same file.
fn comes_back<F: Filed>(rt: &(impl Abort + AllocGlobal), file: &[u8]) -> Result<(), Fail> {
    let mut places = vec![in rt.alloc(); Clause::default(); 65]?;
    let mut draft = Draft::new(&mut places);
    draft.load(F::code(), file)?;
    let filter = draft.seal();
    writes::<F>(rt, &filter, file)?;
    just_fits::<F>(rt, &filter, file)?;
    refuses_less_room::<F>(rt, &filter, file);
    loads_again::<F>(rt, &filter)
}

fn sample_comes_back<F: Filed>(rt: &(impl Abort + AllocGlobal)) -> Result<(), Fail> {
    let code = F::code();
    comes_back::<F>(rt, F::SAMPLE)?;
    comes_back::<F>(rt, &[code, 0, 0])?;
    comes_back::<F>(rt, &[code, 0, 1])
}

#[test]
fn samples_come_back(rt: HostRuntime) -> Result<(), Fail> {
    sample_comes_back::<PrefixRange>(&rt)?;
    sample_comes_back::<RouteWithOrigin>(&rt)?;
    sample_comes_back::<Packet>(&rt)
}

#[test]
fn sixty_four_clauses_come_back(rt: HostRuntime) -> Result<(), Fail> {
    // Every field is left out: a clause has two maps, three or four.
    // The array stands here: a part of one that a function answers gets no proof of its length.
    let mut file = [0; 259];
    file[1] = 64;
    file[0] = 1;
    comes_back::<PrefixRange>(&rt, &file[..131])?;
    file[0] = 2;
    comes_back::<RouteWithOrigin>(&rt, &file[..195])?;
    file[0] = 3;
    comes_back::<Packet>(&rt, &file)
}

// Local preference 0, the largest; MED 0, the largest; both.
fn numbers_come_back<F: Filed>(rt: &(impl Abort + AllocGlobal)) -> Result<(), Fail> {
    let code = F::code();
    comes_back::<F>(rt, &[code, 0, 3, 0, 0, 0, 0])?;
    comes_back::<F>(rt, &[code, 0, 3, 255, 255, 255, 255])?;
    comes_back::<F>(rt, &[code, 0, 5, 0, 0, 0, 0])?;
    comes_back::<F>(rt, &[code, 0, 5, 255, 255, 255, 255])?;
    comes_back::<F>(rt, &[code, 0, 7, 0, 0, 0, 0, 255, 255, 255, 255])?;
    comes_back::<F>(rt, &[code, 0, 7, 255, 255, 255, 255, 0, 0, 0, 0])
}

#[test]
fn action_numbers_come_back(rt: HostRuntime) -> Result<(), Fail> {
    numbers_come_back::<PrefixRange>(&rt)?;
    numbers_come_back::<RouteWithOrigin>(&rt)
}

#[test]
fn ends_at_each_other_s_absent_value_come_back(rt: HostRuntime) -> Result<(), Fail> {
    // A low at the top and a high at 0, for ends of four bytes, one and two.
    comes_back::<RouteWithOrigin>(&rt, b"\x02\x01\x00\x01\xff\xff\xff\xff\x00\x00")?;
    comes_back::<RouteWithOrigin>(&rt, b"\x02\x01\x00\x02\x00\x00\x00\x00\x00\x00")?;
    comes_back::<Packet>(&rt, b"\x03\x01\x01\xff\xff\xff\xff\x00\x00\x00\x00")?;
    comes_back::<Packet>(&rt, b"\x03\x01\x02\x00\x00\x00\x00\x00\x00\x00\x00")?;
    comes_back::<Packet>(&rt, b"\x03\x01\x00\x01\xff\x00\x00\x00")?;
    comes_back::<Packet>(&rt, b"\x03\x01\x00\x02\x00\x00\x00\x00")?;
    comes_back::<Packet>(&rt, b"\x03\x01\x00\x00\x01\xff\xff\x00\x00")?;
    comes_back::<Packet>(&rt, b"\x03\x01\x00\x00\x02\x00\x00\x00\x00")?;
    comes_back::<Packet>(&rt, b"\x03\x01\x00\x03\x06\x06\x01\x04\x00\x01\x00")?;
    // A prefix range whose low or high is 0, or whose prefix is one host.
    comes_back::<PrefixRange>(&rt, b"\x01\x02\x08\x20\x01\x03\x0a\x01\x02\x03\x20\x01\x00")
}

// The region is written as this record.
fn writes_record(rt: &impl Abort, region: impl Written, record: &[u8]) {
    let mut out = [0xee; 20];
    let mut output = Output::new(&mut out);
    region.write(&mut output);
    let n = output.len();
    assert!(rt; n < 20);
    assert_eq!(rt; &out[..n], record);
    assert_eq!(rt; out[n], 0xee);
}

#[test]
fn records_of_prefix_ranges(rt: HostRuntime) -> Result<(), Fail> {
    writes_record(&rt, PrefixRange::new(0, 0, 0, 0)?, b"\x00");
    writes_record(&rt, PrefixRange::new(0, 0, 0, 32)?, b"\x08\x20");
    writes_record(&rt, PrefixRange::new(0, 0, 1, 1)?, b"\x04\x01");
    writes_record(&rt, PrefixRange::new(0, 1, 1, 1)?, b"\x02\x01");
    writes_record(
        &rt,
        PrefixRange::new(0x80000000, 1, 1, 1)?,
        b"\x03\x80\x00\x00\x00\x01",
    );
    writes_record(
        &rt,
        PrefixRange::new(0x14000000, 8, 8, 24)?,
        b"\x0b\x14\x00\x00\x00\x08\x18",
    );
    writes_record(
        &rt,
        PrefixRange::new(0x1e000000, 8, 16, 32)?,
        b"\x0f\x1e\x00\x00\x00\x08\x10\x20",
    );
    writes_record(
        &rt,
        PrefixRange::new(0x0a010203, 32, 32, 32)?,
        b"\x03\x0a\x01\x02\x03\x20",
    );
    Ok(())
}

#[test]
fn records_of_spans(rt: HostRuntime) -> Result<(), Fail> {
    writes_record(&rt, ProtocolSpan::new(0, 255)?, b"\x00");
    writes_record(&rt, ProtocolSpan::new(6, 255)?, b"\x01\x06");
    writes_record(&rt, ProtocolSpan::new(0, 17)?, b"\x02\x11");
    writes_record(&rt, ProtocolSpan::new(6, 17)?, b"\x03\x06\x11");
    writes_record(&rt, PortSpan::new(0, 65535)?, b"\x00");
    writes_record(&rt, PortSpan::new(1024, 65535)?, b"\x01\x04\x00");
    writes_record(&rt, PortSpan::new(0, 1023)?, b"\x02\x03\xff");
    writes_record(&rt, PortSpan::new(80, 443)?, b"\x03\x00\x50\x01\xbb");
    writes_record(&rt, AsSpan::new(0, 4294967295)?, b"\x00");
    writes_record(
        &rt,
        AsSpan::new(65000, 4294967295)?,
        b"\x01\x00\x00\xfd\xe8",
    );
    writes_record(&rt, AsSpan::new(0, 65535)?, b"\x02\x00\x00\xff\xff");
    writes_record(
        &rt,
        AsSpan::new(64512, 65534)?,
        b"\x03\x00\x00\xfc\x00\x00\x00\xff\xfe",
    );
    writes_record(
        &rt,
        AddressSpan::new(1, 4294967294)?,
        b"\x03\x00\x00\x00\x01\xff\xff\xff\xfe",
    );
    Ok(())
}

#[test]
fn records_of_pairs(rt: HostRuntime) -> Result<(), Fail> {
    writes_record(&rt, RouteWithOrigin::whole_region(), b"\x08\x20\x00");
    writes_record(&rt, Packet::whole_region(), b"\x00\x00\x00");
    let pair = Pair {
        first: PrefixRange::new(0x14000000, 8, 8, 24)?,
        second: AsSpan::new(0, 64511)?,
    };
    writes_record(
        &rt,
        pair,
        b"\x0b\x14\x00\x00\x00\x08\x18\x02\x00\x00\xfb\xff",
    );
    Ok(())
}

// A filter made by edits, as a file.
#[test]
fn an_edited_filter_is_written(rt: HostRuntime) -> Result<(), Fail> {
    let region = PrefixRange::new(0x14000000, 8, 8, 24)?;
    let action = RouteAction::Accept {
        preference: None,
        med: Some(7),
    };
    let mut places = [Clause::default(); 2];
    let mut draft = Draft::new(&mut places);
    draft.insert(0, Clause { region, action })?;
    writes(
        &rt,
        &draft.seal(),
        b"\x01\x01\x0b\x14\x00\x00\x00\x08\x18\x05\x00\x00\x00\x07\x00",
    )
}

// The sealed filter of memory without a place is empty, and rejects.
#[test]
fn memory_without_a_place_is_written(rt: HostRuntime) -> Result<(), Fail> {
    writes::<PrefixRange>(&rt, &Draft::new(&mut []).seal(), b"\x01\x00\x00")?;
    writes::<Packet>(&rt, &Draft::new(&mut []).seal(), b"\x03\x00\x00")
}

// More clauses than a file has are refused before the buffer is looked at.
#[test]
fn sixty_five_clauses_are_not_written(rt: HostRuntime) {
    let clauses = [Clause::<Packet, Verdict>::default(); 65];
    let mut out = [0xee; 300];
    let answer = write_file(3, &clauses, Verdict::Accept, &mut out);
    assert_eq!(rt; answer.map_err(WriteError::number), Err(14));
    assert!(rt; is_untouched(&out));
}

#[test]
fn an_empty_buffer_is_too_short(rt: HostRuntime) {
    let filter = Draft::<PrefixRange, RouteAction>::new(&mut []).seal();
    assert_eq!(rt;
        filter.write(1, &mut []).map_err(WriteError::number),
        Err(19)
    );
}
