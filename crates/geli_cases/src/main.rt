//! Runs the cases of case files over objects in memory, and prints their transcript.
//!
//! The names of the files are the arguments. docs/CASES.md says what stands in them.
#![tactic(auto)]

mod call;
mod crash;
mod disks;
mod fault;
mod files;
mod layers;
mod line;
mod next_run;
mod run_disk;
mod traced_disk;
mod transcript;
mod world;

use fault::Fault;
use line::Line;
use std::alloc::Global;
use std::process::ExitCode;
use std::{env, fs, io};
use transcript::Transcript;
use world::World;

fn main(rt: HostRuntime) -> io::Result<ExitCode> {
    let alloc = rt.alloc();
    let mut transcript = Transcript::new(alloc);
    for name in env::args(&rt)?.skip(1) {
        let bytes = fs::read(&rt, name.as_str())?;
        if let Err((number, fault)) = play(alloc, &bytes, &mut transcript) {
            println!(rt; "{name}: line {number}: {}", fault.text())?;
            return Ok(ExitCode::from(1));
        }
    }
    rt.print(transcript.as_str())?;
    Ok(ExitCode::from(0))
}

// Runs the cases of one file. If a line isn't done, returns its number, counted from 1, and why.
fn play(alloc: Global, bytes: &[u8], transcript: &mut Transcript) -> Result<(), (u64, Fault)> {
    let mut world = World::new(alloc);
    for (line, number) in bytes.split(|byte| *byte == b'\n').zip(1u64..u64::MAX) {
        if let Err(fault) = follow(alloc, &mut world, line, transcript) {
            return Err((number, fault));
        }
    }
    Ok(())
}

// Does what one line says; an empty one and a comment say nothing.
fn follow(
    alloc: Global,
    world: &mut World,
    bytes: &[u8],
    transcript: &mut Transcript,
) -> Result<(), Fault> {
    let Ok(text) = str::from_utf8(bytes) else {
        return Err(Fault::Bad("a line that isn't UTF-8"));
    };
    if text.is_empty() || text.starts_with('#') {
        return Ok(());
    }
    let mut line = Line::new(text);
    let done = world.follow(alloc, &mut line, transcript);
    line.settle(done)?;
    transcript.settle()
}
