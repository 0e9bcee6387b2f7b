//! A sink that fails at the reply of `init` and of `attach -C`.
use crate::common::World;
use crash_disk::MemSink;
use std::alloc::Global;
use std::test::Fail;

const MAKING: &str = "init -B b -K k -J p -i 10 a.img";

// A world where `attach` finds a provider that was made before.
fn world_for(alloc: Global, first: &str) -> Result<World, Fail> {
    let mut world = World::new(alloc)?;
    if first != MAKING {
        let mut unseen = MemSink::new(alloc, &[], &[], 2048)?;
        world.run(alloc, MAKING, "", &mut unseen)?;
    }
    Ok(world)
}

// Runs a line: the number of its status, and how many bytes the sink has then.
fn ended(
    alloc: Global,
    world: &mut World,
    line: &str,
    output: &mut MemSink,
) -> Result<(u8, usize), Fail> {
    let status = world.run(alloc, line, "", output)?;
    Ok((status.number(), output.bytes().len()))
}

// Whether a sink that takes one byte at each call, of which the call number `call` fails, takes this of two runs: the
// status of the first, how many bytes it took of that, the status of the second, and all bytes.
fn is_taken(
    alloc: Global,
    first: &str,
    call: u64,
    second: &str,
    want: (u8, usize, u8, &str),
) -> Result<bool, Fail> {
    let mut world = world_for(alloc, first)?;
    let mut output = MemSink::new(alloc, &[1; 80], &[call], 2048)?;
    let (number, length) = ended(alloc, &mut world, first, &mut output)?;
    let (last, _) = ended(alloc, &mut world, second, &mut output)?;
    let is_same = number == want.0 && length == want.1 && last == want.2;
    Ok(is_same && output.bytes() == want.3.as_bytes())
}

const OPENING: &str = "attach -C -k k -j p a.img";

const NO_SUCH_SLOT: &str = "attach -C -n 2 a.img";

// Words, the call of the sink that fails, further words, and what comes of it. A provider whose reply can't be printed
// was made all the same.
const SINK_FAILS: [(&str, u64, &str, (u8, usize, u8, &str)); 8] = [
    (MAKING, 1, OPENING, (4, 0, 0, "ok\n")),
    (MAKING, 2, OPENING, (4, 1, 0, "ook\n")),
    (MAKING, 3, OPENING, (4, 2, 0, "okok\n")),
    (MAKING, 4, OPENING, (0, 3, 4, "ok\n")),
    (OPENING, 1, MAKING, (4, 0, 0, "ok\n")),
    (OPENING, 3, OPENING, (4, 2, 0, "okok\n")),
    (OPENING, 5, OPENING, (0, 3, 4, "ok\no")),
    (
        NO_SUCH_SLOT,
        31,
        NO_SUCH_SLOT,
        (
            4,
            30,
            1,
            "error 18 KeyNumberOutOfRange 2error 18 KeyNumberOutOfRange 2\n",
        ),
    ),
];

#[test]
fn a_sink_that_fails_gets_the_bytes_before(rt: HostRuntime) -> Result<(), Fail> {
    for (first, call, second, want) in SINK_FAILS {
        assert!(&rt;
            is_taken(rt.alloc(), first, call, second, want)?,
            "call {call} of {first}"
        );
    }
    Ok(())
}
