//! The time of PBKDF2 with HMAC-SHA-512, for bench/kdf.py.
//!
//! With a count of iterations as its argument it prints the microseconds that they took and the key. With
//! none it does nothing.
#![tactic(auto)]

use hmac_kdf::pbkdf2_sha512;
use std::rt::{Clock, Env};
use std::time::Instant;
use std::{env, io};

const PASSWORD: &[u8] = b"correct horse battery staple";

const SALT: [u8; 64] = [0x5a; 64];

fn run(rt: &(impl Print + Clock), count: u32) -> io::Result<()> {
    if count == 0 {
        return Ok(());
    }
    let mut key = [0u8; 64];
    let start = Instant::now(rt)?;
    pbkdf2_sha512(PASSWORD, &SALT, count, &mut key);
    let micros = start.elapsed(rt)?.as_micros();
    print!(rt; "{micros} ")?;
    for byte in &key {
        print!(rt; "{byte:02x}")?;
    }
    println!(rt; "")
}

fn main(rt: HostRuntime) -> io::Result<()> {
    let count = match env::args(&rt)?.nth(1) {
        Some(word) => word.parse::<u32>().unwrap_or(0),
        None => 0,
    };
    run(&rt, count)
}
