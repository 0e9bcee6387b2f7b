//! A disk of 512-byte sectors, described by what it held at first and what was done to it since.
ghost use Rattle.std.specs.Prelude.{◌≡◌, ◌+◌, ◌*◌, ◌/◌, ◌%◌, ◌<◌, ◌≤◌, ◌∷◌, [], Bool, OnOk, OnErr, false, is_some, length, option_copied, true};
ghost use Rattle.block_traits.specs.Causes.{Counted};
ghost use Rattle.block_traits.specs.Disk.{DiskState, FailsIn, Gives, GivesEach, IsHistory, Logs, write_events};
ghost use Rattle.block_traits.specs.Parts.{part};

/// The content of one sector.
pub type Sector = [u8; 512];

/// What was done to a disk.
#[derive(Clone, Copy, Debug, PartialEq, Eq)]
pub enum Event {
    /// Sector `n` was given these bytes.
    Write { n: u64, bytes: Sector },
    /// Everything written before is kept from then on, even if power fails.
    Flush,
}

/// The device failed.
#[derive(Clone, Copy, Debug, PartialEq, Eq)]
pub struct DiskFailed;

/// Sector `j` of some bytes: the 512 bytes from `512 * j` on.
pub fn sector_of(bytes: &[u8], j: usize) -> Sector
    requires { 512 * j + 512 ≤ length bytes.now }
    ensures { result ≡ part 512 j bytes.now }
{
    let mut sector = [0; 512];
    sector.copy_from_slice(&bytes[512 * j..512 * j + 512]);
    sector
}

/// A disk of fewer than 2^44 sectors.
pub trait Disk: Drop {
    /// The size, and whether the disk shows its events; neither ever changes. The content, if the disk reports it, as
    /// it does always or never. A count of faults, which never falls. A count of the reads that the disk was asked for
    /// and of those that looks have served. What the disk reports is well formed.
    ghost state: { Self → DiskState };

    /// Whether room was wanting at the last write that failed; a disk that doesn't know says no.
    ghost wants_room: { Self → Bool } = { λ _. false };

    /// The size in sectors.
    fn sectors(&self) -> u64
        ensures { result ≡ (state self.now).size };

    /// Reads sector `n`: what stands there now, if the disk reports its content. The read is counted whatever the
    /// result. After a failure `into` may hold any bytes.
    fn read(&mut self, n: u64, into: &mut Sector) -> Result<(), DiskFailed>
        requires { n < (state self.old).size }
        ensures bytes { OnOk result (Gives (state self.old) n into.new) }
        ensures ok { OnOk result (Logs [] (state self.old) (state self.new)) }
        ensures err { OnErr result (FailsIn [] (state self.old) (state self.new)) }
        ensures asked { Counted 1 (state self.old).reads (state self.new).reads };

    /// Looks at what stands now in whole sectors, from number `first` on, if the disk allows that. A look is no read:
    /// it isn't counted, and nothing changes. If `false` is returned, `into` may hold any bytes.
    fn peek(&mut self, first: u64, into: &mut [u8]) -> bool
        requires whole { length into.old % 512 ≡ 0 }
        requires inside { first + length into.old / 512 ≤ (state self.old).size }
        ensures stand { result ≡ true → GivesEach (state self.old) first into.new }
        ensures stays { state self.new ≡ state self.old }
    {
        false
    }

    /// Counts `many` reads that a look has served. None of them is made.
    fn count_reads(&mut self, many: u64)
        ensures asked { Counted many (state self.old).reads (state self.new).reads }
        ensures logs { Logs [] (state self.old) (state self.new) };

    /// Writes sector `n`. A write that failed may have been done or not.
    fn write(&mut self, n: u64, from: &Sector) -> Result<(), DiskFailed>
        requires { n < (state self.old).size }
        ensures ok { OnOk result (Logs (Event.Write n from.now ∷ []) (state self.old) (state self.new)) }
        ensures err { OnErr result (FailsIn (Event.Write n from.now ∷ []) (state self.old) (state self.new)) }
        ensures unasked { (state self.new).reads ≡ (state self.old).reads };

    /// Writes whole sectors in ascending order, the first to number `first`. After a failure the first few were written
    /// (none, some or all), and no others.
    fn write_sectors(&mut self, first: u64, from: &[u8]) -> Result<(), DiskFailed>
        requires whole { length from.now % 512 ≡ 0 }
        requires inside { first + length from.now / 512 ≤ (state self.old).size }
        ensures ok { OnOk result (Logs (write_events first from.now) (state self.old) (state self.new)) }
        ensures err { OnErr result (FailsIn (write_events first from.now) (state self.old) (state self.new)) }
        ensures unasked { (state self.new).reads ≡ (state self.old).reads }
    {
        for j in 0..from.len() / 512 {
            self.write(first + j as u64, &sector_of(from, j))?;
        }
        Ok(())
    }

    /// Makes everything written before durable. A flush that failed may have been done or not.
    fn flush(&mut self) -> Result<(), DiskFailed>
        ensures ok { OnOk result (Logs (Event.Flush ∷ []) (state self.old) (state self.new)) }
        ensures err { OnErr result (FailsIn (Event.Flush ∷ []) (state self.old) (state self.new)) }
        ensures unasked { (state self.new).reads ≡ (state self.old).reads };

    /// The whole history, the oldest event first, if the disk shows its events, and otherwise `None`.
    fn events(&self) -> Option<&[Event]>
        ensures shown { is_some result ≡ (state self.now).shows }
        ensures history { IsHistory (state self.now).content (option_copied result) };

    /// Whether room was wanting at the last write that failed. It counts nothing and changes nothing.
    fn wants_room(&self) -> bool
        ensures { result ≡ wants_room self.now };
}

/// A boxed disk is the disk in it.
impl Disk for Box<dyn Disk> {
    ghost state = { λ b. (Disk-box b).state b.value };

    ghost wants_room = { λ b. (Disk-box b).wants_room b.value };

    fn sectors(&self) -> u64 {
        (**self).sectors()
    }

    fn read(&mut self, n: u64, into: &mut Sector) -> Result<(), DiskFailed> {
        (**self).read(n, into)
    }

    fn peek(&mut self, first: u64, into: &mut [u8]) -> bool {
        (**self).peek(first, into)
    }

    fn count_reads(&mut self, many: u64) {
        (**self).count_reads(many)
    }

    fn write(&mut self, n: u64, from: &Sector) -> Result<(), DiskFailed> {
        (**self).write(n, from)
    }

    fn write_sectors(&mut self, first: u64, from: &[u8]) -> Result<(), DiskFailed> {
        (**self).write_sectors(first, from)
    }

    fn flush(&mut self) -> Result<(), DiskFailed> {
        (**self).flush()
    }

    fn events(&self) -> Option<&[Event]> {
        (**self).events()
    }

    fn wants_room(&self) -> bool {
        (**self).wants_room()
    }
}
