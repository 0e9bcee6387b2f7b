//! The quickest of slices that are timed.

use std::io;
use std::time::Instant;

/// Times slices. The first fault of the clock is kept, so that no slice has to ask for it.
#[derive(Drop)]
pub struct Stopwatch<'a> {
    rt: &'a HostRuntime,
    /// How many slices are measured.
    pub slices: u32,
    start: Option<Instant>,
    quickest: u128,
    fault: Option<io::Error>,
}

impl<'a> Stopwatch<'a> {
    /// Nothing was timed yet.
    pub fn new(rt: &'a HostRuntime, slices: u32) -> Stopwatch<'a> {
        Stopwatch {
            rt,
            slices,
            start: None,
            quickest: u128::MAX,
            fault: None,
        }
    }

    /// A slice begins.
    pub fn start(&mut self) {
        match Instant::now(self.rt) {
            Ok(start) => self.start = Some(start),
            Err(fault) => self.fault = Some(fault),
        }
    }

    /// The slice ends.
    pub fn stop(&mut self) {
        let Some(start) = self.start else {
            return;
        };
        match start.elapsed(self.rt) {
            Ok(time) => self.quickest = self.quickest.min(time.as_nanos()),
            Err(fault) => self.fault = Some(fault),
        }
    }

    /// The nanoseconds of the quickest slice.
    pub fn quickest(self) -> io::Result<u128> {
        match self.fault {
            None => Ok(self.quickest),
            Some(fault) => Err(fault),
        }
    }
}
