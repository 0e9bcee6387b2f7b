//! The system's random bytes.
ghost use Rattle.std.specs.Prelude.{◌≡◌, IfSome, IsErr, IsNone, OnErr, OnOk, length};
ghost use Rattle.std.specs.Io.KnownBytes.{prepend_known};
ghost use Rattle.block_traits.specs.Causes.{Counted, HasCause};
ghost use Rattle.file_edge.specs.ImageFile.{read_bytes};

use crate::image_file::ImageFile;
use crate::opener::Opener;
use block_traits::{Entropy, EntropyFailed};
use std::fs::OpenOptions;

/// `/dev/urandom` as entropy. It reports the bytes that are left if its device does, and counts each failure and each
/// call.
#[derive(Drop)]
pub struct RandomFile<F: ImageFile> {
    device: Option<F>,
    faults: u64,
    calls: u64,
}

impl<F: ImageFile + 'static> RandomFile<F> {
    ghost use Rattle.file_edge.specs.Names.{IsRandom};
    ghost use Rattle.file_edge.specs.RandomFile.{AsksDevice, OpensDevice, left_in};

    /// Opens the device. If it can't be opened, each call fails, and nothing is left.
    pub fn open<O: Opener<File = F>>(opener: &mut O) -> RandomFile<F>
        ensures opens { OpensDevice O.answers opener.old result }
        ensures left { IsRandom (O.told opener.old) (left_in F.left result.device) }
        ensures told { O.told opener.new ≡ O.told opener.old }
        ensures asked { AsksDevice O.asked opener.old opener.new }
        ensures faults { result.faults ≡ 0 }
        ensures calls { result.calls ≡ 0 }
    {
        RandomFile {
            device: opener
                .open(OpenOptions::new().read(true), "/dev/urandom")
                .ok(),
            faults: 0,
            calls: 0,
        }
    }
}

impl<F: ImageFile> Entropy for RandomFile<F> {
    ghost use Rattle.file_edge.specs.RandomFile.{left_in};

    ghost state = { λ random. record {
      left = left_in F.left random.device;
      faults = random.faults;
      calls = random.calls;
    } };

    /// Besides what entropy does: it returns what the device returned, and fails only if the device failed or there is
    /// none.
    fn fill(&mut self, into: &mut [u8]) -> Result<(), EntropyFailed>
        ensures ok { OnOk result (left_in F.left self.old.device
            ≡ prepend_known into.new (left_in F.left self.new.device)) }
        ensures err { OnErr result (left_in F.left self.new.device ≡ left_in F.left self.old.device) }
        ensures answered { IfSome self.old.device (λ before. IfSome self.new.device (λ after.
            F.fills (length into.old) before (read_bytes result into.new) after)) }
        ensures kept { IsNone self.new.device → IsNone self.old.device }
        ensures unopened { IsNone self.old.device → IsErr result }
        ensures cause { HasCause self.old.faults self.new.faults result }
        ensures asked { Counted 1 self.old.calls self.new.calls }
    {
        self.calls = self.calls.saturating_add(1);
        if let Some(device) = &mut self.device
            && device.fill_all(into).is_ok()
        {
            return Ok(());
        }
        self.faults = self.faults.saturating_add(1);
        Err(EntropyFailed)
    }
}
