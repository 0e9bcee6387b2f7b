//! Which units are accepted: the tags of device sectors in memory are computed, and nothing is deciphered.
ghost use Rattle.std.specs.Prelude.{◌≡◌, ◌≢◌, ◌↔◌, ◌+◌, ◌*◌, ◌/◌, ◌^◌, ◌%◌, ◌<◌, ◌≤◌, IsTrue, is_ok, length, true};
ghost use Rattle.eli_base.specs.declared.algorithms.Auth.TheVariants.{Off};
ghost use Rattle.sealing.specs.Sectors.{unit_reading_at, units};
ghost use Rattle.sector_runs.specs.Verdicts.{HasWholeFour, IsFirstRefused, Judges, accepted_among, verdict};

use crate::judged::Judged;
use auth_sectors::{apart_accepted, unit_accepted};
use block_traits::sector_of;
use range_keys::KeyRing;

// How many rows are checked at once, at most. A logical sector of 4,096 bytes has ten units with HMAC/SHA512, and nine
// with HMAC/SHA256.
const MOST_ROWS: usize = 10;

impl Judged {
    /// Whether the unit of this number among them is accepted.
    pub fn accepts(&self, m: usize) -> bool
        requires { m < self.now.count }
        ensures { result ≡ verdict self.now m }
    {
        self.accepted[m % self.rows][m / self.rows]
    }

    // The first unit that isn't accepted.
    fn refused(&self) -> Option<usize>
        ensures { IsFirstRefused (verdict self.now) self.now.count result }
    {
        for m in 0..self.count {
            if !self.accepts(m) {
                return Some(m);
            }
        }
        None
    }
}

// Checks the unit in device sector `n`.
fn judge_one(ring: &KeyRing, n: u64, device: &[u8]) -> Judged
    requires on { ring.now.keying.auth ≢ Off }
    requires some { 512 ≤ length device.now }
    requires small { n < 2 ^ 44 }
    ensures { Judges ring.now.keying n device.now result }
{
    let units = ring.layout().units as u64;
    let unit = ring.unit(n / units, (n % units) as usize);
    let from = sector_of(device, 0);
    let accepted = unit_accepted(ring, unit.offset, unit.end - unit.start, &from);
    Judged {
        count: 1,
        rows: 1,
        accepted: [[accepted; 4]; MOST_ROWS],
    }
}

// Checks four whole units of one logical sector, the first in device sector `n`.
fn judge_four(ring: &KeyRing, n: u64, device: &[u8]) -> Judged
    requires on { ring.now.keying.auth ≢ Off }
    requires whole { HasWholeFour ring.now.keying n }
    requires four { 2048 ≤ length device.now }
    requires small { n < 2 ^ 44 }
    ensures { Judges ring.now.keying n device.now result }
{
    let four = [
        &device[..512],
        &device[512..1024],
        &device[1024..1536],
        &device[1536..2048],
    ];
    let size = ring.layout().unit_bytes;
    Judged {
        count: 4,
        rows: 1,
        accepted: [apart_accepted(ring, 512 * n, 512, size, four); MOST_ROWS],
    }
}

// Checks the units of four logical sectors, of which the first begins in device sector `n`. Each has ten units at most.
fn judge_four_sectors(ring: &KeyRing, n: u64, device: &[u8]) -> Judged
    requires on { ring.now.keying.auth ≢ Off }
    requires begins { n % units ring.now.keying ≡ 0 }
    requires few { units ring.now.keying ≤ 10 }
    requires all { 512 * (4 * units ring.now.keying) ≤ length device.now }
    requires small { n < 2 ^ 44 }
    ensures { Judges ring.now.keying n device.now result }
{
    let units = ring.layout().units;
    let width = 512 * units;
    let mut accepted = [[false; 4]; MOST_ROWS];
    for j in 0..units {
        let unit = ring.unit(n / units as u64, j);
        let at = 512 * j;
        let four = [
            &device[at..at + 512],
            &device[width + at..width + at + 512],
            &device[2 * width + at..2 * width + at + 512],
            &device[3 * width + at..3 * width + at + 512],
        ];
        let size = unit.end - unit.start;
        accepted[j] = apart_accepted(ring, unit.offset, width as u64, size, four);
    }
    Judged {
        count: 4 * units,
        rows: units,
        accepted,
    }
}

/// Checks the next units of device sectors that stand one after the other, the first of number `n`: all of four
/// logical sectors of ten units or fewer, or four whole ones of one logical sector, or one.
pub fn judge(ring: &KeyRing, n: u64, device: &[u8]) -> Judged
    requires on { ring.now.keying.auth ≢ Off }
    requires some { 512 ≤ length device.now }
    requires small { n < 2 ^ 44 }
    ensures { Judges ring.now.keying n device.now result }
{
    let layout = ring.layout();
    let j = (n % layout.units as u64) as usize;
    let whole = layout.size / layout.unit_bytes;
    let count = device.len() / 512;
    if j == 0 && layout.units <= MOST_ROWS && 4 * layout.units <= count {
        return judge_four_sectors(ring, n, device);
    }
    if j + 4 <= whole && 4 <= count {
        return judge_four(ring, n, device);
    }
    judge_one(ring, n, device)
}

/// Finds the first of some device sectors whose unit isn't accepted, and returns its place among them. They stand one
/// after the other; the first has number `n`.
pub fn first_refused(ring: &KeyRing, n: u64, device: &[u8]) -> Option<usize>
    requires on { ring.now.keying.auth ≢ Off }
    requires small { n + length device.now / 512 ≤ 2 ^ 44 }
    ensures { IsFirstRefused (accepted_among ring.now.keying n device.now) (length device.now / 512) result }
{
    let count = device.len() / 512;
    let mut done = 0;
    'groups: while done < count {
        let judged = judge(ring, n + done as u64, &device[512 * done..]);
        match judged.refused() {
            Some(m) => return Some(done + m),
            None => done += judged.count,
        }
    }
    None
}
