//! Refusals that no case prints, and in how many calls a sink is given a reply.
ghost use Rattle.std.specs.Prelude.{length};
ghost use Rattle.reply_text.specs.Text.{FitsPayload};

use crate::dump::metadata;
use block_traits::ByteList;
use crash_disk::MemSink;
use eli_base::{Reason, Refusal};
use eli_metadata::decode;
use reply_text::{Reply, Row, RowList, write_reply};
use std::alloc::Global;
use std::test::Fail;

// Whether the refusal is printed so, if the sink takes a few bytes at a time.
fn prints(alloc: Global, refusal: Refusal, wanted: &str) -> Result<bool, Fail> {
    let mut sink = MemSink::new(alloc, &[1, 2, 0, 3, 5, 1, 1], &[], 64)?;
    let printed = write_reply(&Reply::Refused(refusal), &[], &mut sink).is_ok();
    Ok(printed && sink.bytes() == wanted.as_bytes())
}

// No case lacks memory, and none has a key of another master key while a drawer is suspended.
#[test]
fn refusals_that_no_case_prints(rt: HostRuntime) -> Result<(), Fail> {
    let alloc = rt.alloc();
    assert!(&rt; prints(alloc, Refusal::NoMemory, "error 33 NoMemory\n")?);
    assert!(&rt; prints(alloc, Refusal::DifferentKey, "error 45 DifferentKey\n")?);
    Ok(())
}

// Whether a sink that takes all it is given is called so often for the reply: if the last of these calls fails, so does
// the reply, but not if the one after it would.
fn takes_calls(alloc: Global, reply: &Reply, payload: &[u8], calls: u64) -> Result<bool, Fail>
    requires { FitsPayload (length payload.now) reply.now }
{
    let mut last = MemSink::new(alloc, &[], &[calls], 262_148)?;
    let mut behind = MemSink::new(alloc, &[], &[calls.saturating_add(1)], 262_148)?;
    let fails = write_reply(reply, payload, &mut last).is_err();
    Ok(fails && write_reply(reply, payload, &mut behind).is_ok())
}

// A list of one suspended drawer.
fn rows_of_one(alloc: Global) -> Result<RowList, Fail> {
    let mut rows = Vec::new(alloc);
    rows.push(Row {
        name: ByteList::from_vec(Vec::from_slice(alloc, b"a.img")?),
        attached: false,
        suspended: true,
        sectorsize: 4096,
        sectors: 255,
    })?;
    Ok(RowList::from_vec(rows))
}

#[test]
fn few_calls_of_a_sink(rt: HostRuntime) -> Result<(), Fail> {
    let alloc = rt.alloc();
    let Ok(meta) = decode(&metadata()) else {
        return Err(Fail::from("no metadata"));
    };
    assert!(&rt; takes_calls(alloc, &Reply::Done, &[], 1)?);
    assert!(&rt; takes_calls(alloc, &Reply::Dump(meta), &[], 1)?);
    let rows = Reply::Rows(rows_of_one(alloc)?);
    assert!(&rt; takes_calls(alloc, &rows, &[], 1)?);
    let usage = Reply::Refused(Refusal::Usage {
        word: 7,
        reason: Reason::UnknownVerb,
    });
    assert!(&rt; takes_calls(alloc, &usage, &[], 1)?);
    let bytes = vec![in alloc; 0x5a; 131_072]?;
    let largest = Reply::Payload { length: 131_072 };
    assert!(&rt; bytes.len() == 131_072);
    let sector = Reply::Payload { length: 512 };
    assert!(&rt; takes_calls(alloc, &sector, bytes.as_slice(), 1)?);
    assert!(&rt; takes_calls(alloc, &largest, bytes.as_slice(), 17)?);
    Ok(())
}
