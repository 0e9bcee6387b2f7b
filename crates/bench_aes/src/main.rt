//! The time of the cipher modes, of the key ring, of sealed sectors and of a provider, for bench/aes.py.
//!
//! Its arguments are what is measured, what is done with it, the bits of a key, the bytes of a call and how many
//! slices are measured. It prints the nanoseconds of the quickest slice, the calls of a slice, and for a mode the last
//! 16 bytes that one call leaves of zeros. With other arguments it does nothing.
#![tactic(auto)]

mod modes;
mod providers;
mod request;
mod sectors;
mod stopwatch;

use modes::time_mode;
use providers::time_provider;
use request::{Report, Request, Subject};
use sectors::{time_keys, time_pieces, time_sectors};
use std::alloc::Global;
use std::{env, io};
use stopwatch::Stopwatch;

/// The most bytes of a call.
pub const MOST_BYTES: usize = 65_536;

// The calls of a slice go over about so many bytes.
const SLICE: usize = 1 << 18;

/// How many calls over so many bytes a slice has.
pub fn calls_of(size: usize) -> u32 {
    (SLICE / size.max(1)) as u32
}

fn main(rt: HostRuntime) -> io::Result<()> {
    match request_of(&rt)? {
        Some(request) => measure(&rt, request),
        None => Ok(()),
    }
}

fn request_of(rt: &HostRuntime) -> io::Result<Option<Request>> {
    let mut words = env::args(rt)?;
    words.next();
    Ok(Request::read(&mut words))
}

fn measure(rt: &HostRuntime, request: Request) -> io::Result<()> {
    let mut watch = Stopwatch::new(rt, request.slices);
    let report = measured(rt.alloc(), request, &mut watch);
    print_report(rt, watch.quickest()?, report)
}

fn measured(alloc: Global, request: Request, watch: &mut Stopwatch<'_>) -> Option<Report> {
    match request.subject {
        Subject::Mode(cipher) => time_mode(alloc, request, cipher, watch),
        Subject::Sectors(cipher) => time_sectors(alloc, request, cipher, watch),
        Subject::Ring => time_keys(alloc, request, watch),
        Subject::Pieces(auth) => time_pieces(alloc, request, auth, watch),
        Subject::Provider(auth) => time_provider(alloc, request, auth, watch),
    }
}

fn print_report(rt: &HostRuntime, nanos: u128, report: Option<Report>) -> io::Result<()> {
    let Some(Report { count, last }) = report else {
        return Ok(());
    };
    match last {
        Some(last) => println!(rt; "{nanos} {count} {last:032x}"),
        None => println!(rt; "{nanos} {count}"),
    }
}
