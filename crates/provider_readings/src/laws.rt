//! What holds of a provider's calls and of the cells of its disk, whatever the disk.
ghost use Rattle.std.specs.Prelude.{◌≡◌, ℕ, ◌+◌, ◌*◌, ◌<◌, ◌≤◌, Bool, List, None, Ok, Result, length, take};
ghost use Rattle.block_traits.specs.Content.{Content, IsContentOf};
ghost use Rattle.block_traits.specs.Crash.{IsImage, IsUnsettled};
ghost use Rattle.eli_base.specs.Keying.{Keying};
ghost use Rattle.eli_metadata.specs.Checks.{slot_matches};
ghost use Rattle.eli_metadata.specs.declared.metadata.Metadata.{Metadata};
ghost use Rattle.eli_base.specs.declared.parameters.Params.{Params};
ghost use Rattle.provider.specs.Answers.{AttachAnswers, Means, ReadAnswers, Target, request};
ghost use Rattle.provider.specs.Attached.{Attached};
ghost use Rattle.provider.specs.declared.faults.AttachFault.{AttachFault};
ghost use Rattle.sector_runs.specs.declared.faults.ReadFault.{ReadFault};
ghost use Rattle.range_keys.specs.Ring.{IsKeying};
ghost use Rattle.sealing.specs.Sectors.{joined, unit_readings, units};
ghost use Rattle.sector_runs.specs.Reading.{data_reading, sector_reading};
ghost use Rattle.sector_runs.specs.Writing.{data_writes};
ghost use Rattle.readings.specs.Writings.{Writing};
ghost use Rattle.readings.specs.Read.{read_sector};
ghost use Rattle.readings.specs.Steps.{Step, after, cell, events_of};
ghost use Rattle.readings.specs.Survivors.{AreSteps, ReadFromCells, chosen, content_media, moment, sectors_in};
ghost use Rattle.readings.specs.Writes.{data_steps};
ghost use Rattle.provider_readings.specs.Attaching.{AttachesOrLacksMemory, HasImage, IsOpenedBy, ReadsImage};
ghost use Rattle.provider_readings.specs.Data.{data_read, survivor};

use block_traits::Disk;

/// A write of logical sectors logs the events of the steps of a write, whatever its number.
pub fn writes_are_steps()
    ensures { (number : ℕ) (k : Keying) (sector count : ℕ) (bytes : List ℕ) →
        events_of (data_steps number k sector count bytes) ≡ data_writes k sector count bytes }
{}

/// What a read of logical sectors returns after some steps is what the last writings of the cells say.
pub fn reads_are_of_last_writings()
    ensures { (c : Content) (steps : List Step) (k : Keying) (sector count : ℕ) →
        IsContentOf (length c.base) c → AreSteps steps → IsKeying k → sector + count ≤ content_media k c →
        data_reading k (after steps c) sector count ≡ data_read k sector count (cell c steps) }
{}

/// A provider on any image reads each logical sector unit by unit, from the device sectors that the image has for it:
/// the bytes of all units, or the first fault among them.
pub fn images_read_unit_by_unit()
    ensures { (k : Keying) (sector : ℕ) (image : List (List ℕ)) → sector * units k + units k ≤ length image →
        sector_reading k (survivor image) sector ≡ joined (unit_readings k sector (sectors_in k sector image)) }
{}

/// A provider on an image that survived reads each logical sector as the writings that the image chose from the cells.
pub fn survivors_read_as_chosen()
    ensures { (c : Content) (steps : List Step) (t : ℕ) (choice : ℕ → ℕ) (image : List (List ℕ)) (k : Keying) (sector : ℕ) →
        IsContentOf (length c.base) c → AreSteps steps → IsKeying k → sector < content_media k c →
        IsImage (moment t steps c) choice image →
        sector_reading k (survivor image) sector ≡ read_sector k sector (chosen k sector (cell c (take t steps)) choice) }
{}

/// A provider on a torn or altered image reads each logical sector as the writings that stand in it.
pub fn survivors_read_from_cells()
    ensures torn { (c now : Content) (image : List (List ℕ)) (k : Keying) (sector : ℕ) (cells : ℕ → List Writing) →
        IsKeying k → sector < content_media k c → length image ≡ length c.base →
        (from : ReadFromCells k sector cells (IsUnsettled now) image) →
        sector_reading k (survivor image) sector ≡ read_sector k sector from.writings }
    ensures altered { (c : Content) (image : List (List ℕ)) (k : Keying) (sector : ℕ) (cells : ℕ → List Writing) →
        IsKeying k → sector < content_media k c → length image ≡ length c.base →
        (from : ReadFromCells k sector cells (λ n. Unit {0}) image) →
        sector_reading k (survivor image) sector ≡ read_sector k sector from.writings }
{}

/// `Provider::attach` on a disk with an image that a user key opens, no slot being named, gives the provider, unless
/// there was no memory. It has the keying of the metadata and the master key of the first slot that opens. An image is
/// opened if its last sector has metadata that `check` accepts, of the image's size, with a whole logical sector. The
/// gate of the slots lets it through, too.
pub fn survivors_attach<D: Disk>()
    ensures gate { (image : List (List ℕ)) (m : Metadata) (params : Params) (key : List ℕ) (s : ℕ) (master : List ℕ) →
        IsOpenedBy image m params key s master → slot_matches m None ≡ Ok tt }
    ensures attaches { (image : List (List ℕ)) (m : Metadata) (params : Params) (key : List ℕ) (readonly : Bool) (s : ℕ) (master : List ℕ) (disk : D) (result : Result (Attached D) (D × AttachFault)) →
        HasImage image (D.state disk) → IsOpenedBy image m params key s master →
        let target : Target = record { meta = m; params = params; disk = D.state disk } in
        let means : Means = record { key = key; named = None; readonly = readonly } in
        AttachAnswers target means disk result → AttachesOrLacksMemory disk params s master result }
{}

/// What a provider attached on such an image reads, however often, is what the image has, unit by unit: what `Endures`
/// (`readings`) speaks of.
pub fn attached_survivors_read<D: Disk>()
    ensures { (image : List (List ℕ)) (sector : ℕ) (into bytes : List ℕ) (old new : Attached D) (answer : Result (Unit {0}) ReadFault) →
        HasImage image (D.state old.disk) → IsKeying old.keying → ReadAnswers D.state (request D.state old sector into) bytes old new answer →
        ReadsImage old.keying (request D.state old sector into) image bytes answer (D.state old.disk) (D.state new.disk) × HasImage image (D.state new.disk) }
{}
