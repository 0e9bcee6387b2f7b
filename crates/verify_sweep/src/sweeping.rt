//! Units that are read and looked at, one after the other.
ghost use Rattle.std.specs.Prelude.{◌≡◌, ◌≢◌, ◌+◌, ◌*◌, ◌/◌, ◌^◌, ◌<◌, ◌≤◌, [], ◌∷◌, IfOk, OnErr, length};
ghost use Rattle.block_traits.specs.Disk.{DiskState};
ghost use Rattle.block_traits.specs.Parts.{parts};
ghost use Rattle.eli_base.specs.declared.algorithms.Auth.TheVariants.{Off};
ghost use Rattle.eli_base.specs.Requests.{request_limit};
ghost use Rattle.provider.specs.Attached.{IsKept, media};
ghost use Rattle.sector_runs.specs.Reads.{FailsAt};
ghost use Rattle.sealing.specs.Sectors.{units};
ghost use Rattle.verify_sweep.specs.Sweeping.{Lists, Looks, Sweep, SweepAnswers, failing_units, refused_at};

use block_traits::{Disk, DiskFailed, Sector};
use provider::Provider;

/// How far a sweep went.
#[derive(Clone, Copy, Debug, PartialEq, Eq)]
pub struct Swept {
    /// The logical sector where the next sweep begins.
    pub next: u64,
    /// How many units fail.
    pub bad: u32,
}

// How many units a sweep looks at, at most.
const MOST_UNITS: u64 = 16_384;

// How many device sectors are looked at at once, at most.
const WINDOW: u64 = 40;

// If the unit of device sector `n` isn't accepted, puts its offset after so many others. Returns how many are listed
// then.
fn list(n: u64, accepted: bool, found: &mut [u8], bad: u32) -> u32
    requires small { n < 2 ^ 44 }
    requires few { bad < 16384 }
    requires room { request_limit ≤ length found.old }
    ensures { Lists (refused_at n (accepted ∷ [])) bad result found.old found.new }
{
    if accepted {
        return bad;
    }
    let place = 8 * bad as usize;
    let offset = 512 * n;
    found[place..place + 8].copy_from_slice(&offset.to_le_bytes());
    bad + 1
}

// Looks at the next units, as many as are checked at once, and lists those whose tag differs. The first device sector
// has number `n`. Returns at how many it looked, and how many are listed then.
fn list_next<D: Disk>(
    on: &Provider<D>,
    n: u64,
    device: &[u8],
    found: &mut [u8],
    bad: u32,
) -> (usize, u32)
    requires on { on.now.keying.auth ≢ Off }
    requires some { 512 ≤ length device.now }
    requires inside { n + length device.now / 512 ≤ media on.now.keying (D.state on.now.disk) * units on.now.keying }
    requires few { bad + length device.now / 512 ≤ 16384 }
    requires room { request_limit ≤ length found.old }
    ensures some { 1 ≤ result.0 }
    ensures within { 512 * result.0 ≤ length device.now }
    ensures lists { Lists (failing_units on.now.keying n (parts 512 result.0 device.now)) bad result.1 found.old found.new }
{
    let judged = on.judge(n, device);
    let mut now = bad;
    for m in 0..judged.count {
        now = list(n + m as u64, judged.accepts(m), found, now);
    }
    (judged.count, now)
}

// Lists the units of device sectors, the first of number `n`, whose tag differs. Returns how many are listed then.
fn list_all<D: Disk>(on: &Provider<D>, n: u64, device: &[u8], found: &mut [u8], bad: u32) -> u32
    requires on { on.now.keying.auth ≢ Off }
    requires inside { n + length device.now / 512 ≤ media on.now.keying (D.state on.now.disk) * units on.now.keying }
    requires few { bad + length device.now / 512 ≤ 16384 }
    requires room { request_limit ≤ length found.old }
    ensures { Lists (failing_units on.now.keying n (parts 512 (length device.now / 512) device.now)) bad result found.old found.new }
{
    let count = device.len() / 512;
    let mut now = bad;
    let mut done = 0;
    'groups: while done < count {
        let (many, next) = list_next(on, n + done as u64, &device[512 * done..], found, now);
        done += many;
        now = next;
    }
    now
}

// How many device sectors are looked at at once, the first of number `n`, of so many that are left. They are those of
// whole logical sectors, if one fits; of logical sectors that have ten units or fewer, a multiple of four, since the
// tags of four such sectors are computed side by side.
fn looked_at(units: u64, n: u64, left: u64) -> u64
    requires units { 1 ≤ units }
    requires left { 1 ≤ left }
    ensures some { 1 ≤ result }
    ensures within { result ≤ left }
    ensures fits { 512 * result ≤ 20480 }
{
    let begun = n % units;
    if begun != 0 || units > WINDOW {
        return (units - begun).min(WINDOW).min(left);
    }
    let group = if units <= 10 { 4 * units } else { units };
    (WINDOW - WINDOW % group).min(left)
}

// Looks at the next units, of which so many are left: at several at once if the disk gives a look at them, else at one.
// Returns at how many, and how many are listed then.
fn look_on<D: Disk>(
    on: &mut Provider<D>,
    n: u64,
    left: u64,
    found: &mut [u8],
    bad: u32,
    window: &mut [u8],
) -> Result<(u64, u32), DiskFailed>
    requires on { on.old.keying.auth ≢ Off }
    requires some { 1 ≤ left }
    requires inside { n + left ≤ media on.old.keying (D.state on.old.disk) * units on.old.keying }
    requires few { bad + left ≤ 16384 }
    requires room { request_limit ≤ length found.old }
    requires window { 20480 ≤ length window.old }
    ensures many { IfOk result (λ seen. (1 ≤ seen.0) × (seen.0 ≤ left)) }
    ensures ok { IfOk result (λ seen. Looks on.old.keying n seen.0 bad seen.1 found.old found.new (D.state on.old.disk) (D.state on.new.disk)) }
    ensures err { OnErr result (FailsAt 1 (D.state on.old.disk) (D.state on.new.disk)) }
    ensures kept { IsKept on.old on.new }
{
    let many = looked_at(on.units(), n, left);
    let device = &mut window[..512 * many as usize];
    if on.look(n, device) {
        let now = list_all(on, n, device, found, bad);
        return Ok((many, now));
    }
    let mut unit: Sector = [0; 512];
    on.get_unit(n, &mut unit)?;
    let now = list_all(on, n, &unit, found, bad);
    Ok((1, now))
}

/// Looks at the units of logical sectors from number `start` on, and lists those whose tag isn't that of their
/// ciphertext. It goes over `count` sectors, or over fewer: no further than the last one, and over no more units than
/// 16,384.
///
/// The listed units stand at the front of `found` in ascending order, each as eight bytes, the least significant first:
/// its byte offset on the device. What is after them stays. One read of each unit of these sectors is counted, and
/// nothing else is done.
///
/// It is refused only if the device failed: then no more units were read than these, nothing else was done, and `found`
/// may hold any bytes.
pub fn sweep<D: Disk>(
    on: &mut Provider<D>,
    start: u64,
    count: u64,
    found: &mut [u8],
) -> Result<Swept, DiskFailed>
    requires on { on.old.keying.auth ≢ Off }
    requires place { start ≤ media on.old.keying (D.state on.old.disk) }
    requires room { request_limit ≤ length found.old }
    ensures answer { let s : Sweep = record { keying = on.old.keying; media = media on.old.keying (D.state on.old.disk); start = start; count = count } in
        SweepAnswers s found.old found.new result (D.state on.old.disk) (D.state on.new.disk) }
    ensures kept { IsKept on.old on.new }
{
    let units = on.units();
    let sectors = count.min(on.sectors() - start).min(MOST_UNITS / units);
    let first = start * units;
    let all = sectors * units;
    let mut window = [0; 20_480];
    let mut bad = 0;
    let mut done = 0;
    'looks: while done < all {
        let (many, now) = look_on(on, first + done, all - done, found, bad, &mut window)?;
        done += many;
        bad = now;
    }
    Ok(Swept {
        next: start + sectors,
        bad,
    })
}
