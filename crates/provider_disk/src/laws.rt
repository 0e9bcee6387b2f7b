//! What holds of a disk upon a provider, whatever the disk below.
ghost use Rattle.std.specs.Prelude.{◌≡◌, ◌+◌, ◌<◌, ℕ, List, [], ◌∷◌, Result, map, length, Ok};
ghost use Rattle.block_traits.specs.declared.disk.Event.{Event};
ghost use Rattle.block_traits.specs.Content.{Content, IsSector, kept_values, present};
ghost use Rattle.block_traits.specs.Crash.{IsAltered, IsImage, IsTorn};
ghost use Rattle.eli_base.specs.Keying.{Keying};
ghost use Rattle.provider.specs.Answers.{ReadAnswers, request};
ghost use Rattle.provider.specs.Attached.{Attached};
ghost use Rattle.sector_runs.specs.declared.faults.ReadFault.{ReadFault};
ghost use Rattle.provider_readings.specs.Attaching.{HasImage};
ghost use Rattle.range_keys.specs.Ring.{IsKeying};
ghost use Rattle.sealing.specs.Sectors.{IsSingle, reading};
ghost use Rattle.readings.specs.Steps.{Step};
ghost use Rattle.readings.specs.Survivors.{content_media};
ghost use Rattle.provider_disk.specs.Above.{AreStepsOver, EnduresBelow, ReadsChosen, cells_above, content_below};
ghost use Rattle.provider_disk.specs.declared.provider_disk.ProviderDisk.{ProviderDisk};
ghost use Rattle.provider_disk.specs.Opened.{KeepsLastData, MomentAbove, opened_single, opened_content, opened_data_sectors};
ghost use Rattle.provider_disk.specs.ProviderDisk.{provider_disk_of};

use block_traits::Disk;

/// Under a keying of single device sectors a logical sector reads as its device sector opened, which depends on its
/// number and its bytes alone.
pub fn device_sectors_open_by_themselves()
    ensures { (k : Keying) (n : ℕ) (bytes : List ℕ) → IsKeying k → IsSingle k → IsSector bytes →
        reading k n (bytes ∷ []) ≡ Ok (opened_single k n bytes) }
{}

/// Each sector of a disk upon a provider holds what its sector below holds, opened; so do the values that it may hold
/// if power fails, place by place.
pub fn kept_values_are_opened()
    ensures now { (k : Keying) (c : Content) (n : ℕ) → n + 1 < length c.base → present (opened_content k c) n ≡ opened_single k n (present c n) }
    ensures kept { (k : Keying) (c : Content) (n : ℕ) → n + 1 < length c.base →
        kept_values (opened_content k c) n ≡ map (opened_single k n) (kept_values c n) }
{}

/// Each moment of the disk below is one of the disk upon the provider.
pub fn moments_are_opened()
    ensures { (k : Keying) (c : Content) (t : ℕ) → MomentAbove k c t }
{}

/// If power fails, the image that is left below is, sector by sector, one that may be left of the disk upon the
/// provider. So are torn and altered ones in which the last data sector below, the last sector of the disk upon the
/// provider, holds a kept value.
pub fn crash_images_are_opened()
    ensures whole { (k : Keying) (c : Content) (choice : ℕ → ℕ) (image : List (List ℕ)) → IsImage c choice image →
        IsImage (opened_content k c) choice (opened_data_sectors k image) }
    ensures torn { (k : Keying) (c : Content) (image : List (List ℕ)) → IsKeying k → IsSingle k → KeepsLastData c image → IsTorn c image →
        IsTorn (opened_content k c) (opened_data_sectors k image) }
    ensures altered { (k : Keying) (c : Content) (image : List (List ℕ)) → IsKeying k → IsSingle k → KeepsLastData c image → IsAltered c image →
        IsAltered (opened_content k c) (opened_data_sectors k image) }
{}

/// A provider that stands on a disk upon a provider keeps, if power fails below, all that is promised of one on any
/// disk. Say that these events were logged below while these steps were done above. Then each logical sector of an
/// image that is left after the first t events reads, opened by both, as the writings of its cells say.
pub fn crashes_below_are_read_above()
    ensures { (k j : Keying) (c : Content) (events : List Event) (steps : List Step) (t sector : ℕ) →
        AreStepsOver k c events steps → IsKeying j → sector < content_media j (opened_content k c) → EnduresBelow k j c events steps t sector }
{}

/// A disk upon a provider on an image that survived has the opened image. A provider attached upon it then reads,
/// however often, what the writings say that the image below chose from the cells: those of the steps done above before
/// the crash.
pub fn survivors_below_are_read_above<D: Disk>()
    ensures has { (image : List (List ℕ)) (p : ProviderDisk D) → HasImage image (D.state p.on.disk) → HasImage (opened_data_sectors p.on.keying image) (provider_disk_of D.state p) }
    ensures reads { (k : Keying) (c : Content) (events : List Event) (steps : List Step) (t : ℕ) (choice : ℕ → ℕ) (image : List (List ℕ))
        (sector : ℕ) (into bytes : List ℕ) (old new : Attached (ProviderDisk D)) (answer : Result (Unit {0}) ReadFault) →
        AreStepsOver k c events steps → IsKeying old.keying → IsImage (content_below c events t) choice image →
        HasImage (opened_data_sectors k image) (provider_disk_of D.state old.disk) → ReadAnswers (provider_disk_of D.state) (request (provider_disk_of D.state) old sector into) bytes old new answer →
        ReadsChosen old.keying (request (provider_disk_of D.state) old sector into) (cells_above k c events steps t) choice bytes answer (provider_disk_of D.state old.disk) (provider_disk_of D.state new.disk)
        × HasImage (opened_data_sectors k image) (provider_disk_of D.state new.disk) }
{}
