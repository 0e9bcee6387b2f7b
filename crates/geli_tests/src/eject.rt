//! `eject` takes a disk away without a call of it. A disk that is gone shows no events, so its calls are counted
//! beside it.
use crate::common::World;
use crash_disk::MemSink;
use std::alloc::Global;
use std::test::Fail;

// How many calls of its one disk a script makes, with those of the closing. The script must print `printed`.
fn calls_of(alloc: Global, script: &str, printed: &str) -> Result<u64, Fail> {
    let mut world = World::new(alloc)?;
    let mut output = MemSink::new(alloc, &[], &[], 64)?;
    world.run(alloc, "script a.img", script, &mut output)?;
    if output.bytes() != printed.as_bytes() {
        return Err(Fail::from("another reply"));
    }
    Ok(world.calls())
}

// The closing flushes an attached disk. One that was ejected before gets no call any more, attached or not, even if a
// write wasn't flushed.
#[test]
fn an_ejected_disk_gets_no_call(rt: HostRuntime) -> Result<(), Fail> {
    let alloc = rt.alloc();
    let made = calls_of(alloc, "init -P -K k a.img\n", "ok\n")?;
    let ejected = calls_of(alloc, "init -P -K k a.img\neject a.img\n", "ok\nok\n")?;
    assert_eq!(rt; ejected, made);
    let written = "init -P -K k a.img\nattach -p -k k a.img\nfill a.img 7 0 1\n";
    let closed = calls_of(alloc, written, "ok\nok\nok\n")?;
    let ejected = calls_of(
        alloc,
        "init -P -K k a.img\nattach -p -k k a.img\nfill a.img 7 0 1\neject a.img\nread a.img 0 1\n",
        "ok\nok\nok\nok\nerror 2 UnknownProvider\n",
    )?;
    assert_eq!(rt; closed.checked_sub(1), Some(ejected));
    Ok(())
}
