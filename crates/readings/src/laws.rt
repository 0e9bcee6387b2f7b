//! What holds of writings, cells and readings, whatever the disk.
ghost use Rattle.std.specs.Prelude.{◌≡◌, ◌≢◌, ◌↔◌, ◌⊎◌, ℕ, ◌+◌, ◌*◌, ◌<◌, ◌≤◌, [], ◌∷◌, ◌++◌, List, length, get_or, take, Some, None, Ok, Err, All, Contains};
ghost use Rattle.aes_core.specs.Schedule.{AreBytes};
ghost use Rattle.block_traits.specs.declared.disk.Event.{Event};
ghost use Rattle.block_traits.specs.Content.{Content, IsContentOf, IsEventOf, kept_values};
ghost use Rattle.block_traits.specs.Crash.{IsAltered, IsImage, IsTorn, IsUnsettled};
ghost use Rattle.eli_base.specs.declared.algorithms.Auth.TheVariants.{Off};
ghost use Rattle.eli_base.specs.Keying.{Keying};
ghost use Rattle.range_keys.specs.Ring.{IsKeying};
ghost use Rattle.sealing.specs.TaggedUnits.{kept_tag, tag_of};
ghost use Rattle.sealing.specs.Sectors.{unit_reading_at, seal, unit_readings, unit_place, units};
ghost use Rattle.readings.specs.Writings.{AreWritings, Put, PutUnit, Writing, all_device_bytes};
ghost use Rattle.readings.specs.Steps.{Flush, Place, Step, after, cell, events_of};
ghost use Rattle.readings.specs.Read.{Matches, matching, opened_unit, read, read_unit, writing_in};
ghost use Rattle.readings.specs.Survivors.{AreSteps, ReadFromCells, ReadsAsPut, chosen, content_media, moment, sectors_in, sectors_now, last_writings};
ghost use Rattle.readings.specs.Writes.{AreStepsBelow, data_steps, puts_of, raw_steps};
ghost use Rattle.readings.specs.Crashes.{Endures};
ghost use Rattle.readings.specs.Ever.{CollidesWithOneOf, HasNewTag, IsForged, ReadsAsOneOf, cipher_text_at, ever, placed_at};

/// The values that a device sector may hold if power fails after some steps are, place by place, the device bytes of
/// its cell.
pub fn kept_values_are_cells()
    ensures { (c : Content) (steps : List Step) (n : ℕ) →
        kept_values (after steps c) n ≡ all_device_bytes (cell c steps n) }
{}

/// What the units of a logical sector open to, from the device bytes of writings, is what these writings say, with
/// authentication and without. So a unit that was put there under this keying is never a fault.
pub fn units_read_as_written()
    ensures { (k : Keying) (sector : ℕ) (ws : List Writing) → IsKeying k → AreWritings k ws →
        unit_readings k sector (all_device_bytes ws) ≡ read k sector ws }
{}

/// A unit that was put there reads as its plain bytes, but for the first 16 of a unit that AES-CBC without
/// authentication chains to the one before.
pub fn matching_units_read_as_put()
    ensures { (k : Keying) (sector j : ℕ) (ws : List Writing) (p : PutUnit) → IsKeying k → AreWritings k ws → j < units k →
        Matches k sector j (writing_in ws j) p → ReadsAsPut k p (opened_unit k sector ws j) }
{}

/// A unit is a fault only with authentication and if nothing matches, and then at the byte offset of its own device
/// sector.
pub fn faults_are_of_units_that_do_not_match()
    ensures { (k : Keying) (sector j : ℕ) (ws : List Writing) (offset : ℕ) → IsKeying k → AreWritings k ws → j < units k →
        read_unit k sector ws j ≡ Err offset →
        (matching k sector j (writing_in ws j) ≡ None) × (k.auth ≢ Off) × (offset ≡ 512 * unit_place k sector j) }
{}

/// What matches in unit j of a logical sector under a keying is a unit that was put there as just that.
pub fn matching_is_put_there()
    ensures { (k : Keying) (sector j : ℕ) (w : Writing) (p : PutUnit) →
        (matching k sector j w ≡ Some p) ↔ Matches k sector j w p }
{}

/// What any bytes in a device sector read as with authentication, whatever the list of writings. If the tag in them
/// isn't that of their ciphertext, and only then, they are a fault at the device sector's byte offset. Otherwise they
/// read as a writing of the list that is accepted there and has their ciphertext, or they are forged.
pub fn units_fault_or_are_known_or_forged()
    ensures fault { (k : Keying) (n : ℕ) (bytes : List ℕ) →
        (unit_reading_at k n bytes ≡ Err (512 * n)) ↔ (kept_tag k bytes ≢ tag_of k (512 * n) (cipher_text_at k n bytes)) }
    ensures accepted { (k : Keying) (n : ℕ) (bytes : List ℕ) (ever : List Writing) →
        kept_tag k bytes ≡ tag_of k (512 * n) (cipher_text_at k n bytes) →
        ReadsAsOneOf k n bytes ever ⊎ IsForged k n bytes ever }
{}

/// Forged bytes have a tag that no accepted one of these writings has, or their ciphertext and that of one of these
/// writings are a collision of HMAC under one key.
pub fn forged_units_are_new_tags_or_collisions()
    ensures { (k : Keying) (n : ℕ) (bytes : List ℕ) (ever : List Writing) → IsForged k n bytes ever →
        HasNewTag k n bytes ever ⊎ CollidesWithOneOf k n bytes ever }
{}

/// If power fails at any moment of some steps, each logical sector of the image that is left reads as the writings that
/// the image chose from the cells.
pub fn image_reads_as_chosen()
    ensures { (c : Content) (steps : List Step) (t : ℕ) (choice : ℕ → ℕ) (image : List (List ℕ)) (k : Keying) (sector : ℕ) →
        IsContentOf (length c.base) c → AreSteps steps → IsKeying k → sector < content_media k c →
        IsImage (moment t steps c) choice image →
        unit_readings k sector (sectors_in k sector image) ≡ read k sector (chosen k sector (cell c (take t steps)) choice) }
{}

/// In a torn image each logical sector reads as writings of the cells, or of strange bytes if a device sector has more
/// than one kept value.
pub fn torn_image_reads_from_cells()
    ensures { (c : Content) (steps : List Step) (t : ℕ) (image : List (List ℕ)) (k : Keying) (sector : ℕ) →
        IsContentOf (length c.base) c → AreSteps steps → IsKeying k → sector < content_media k c →
        IsTorn (moment t steps c) image →
        ReadFromCells k sector (cell c (take t steps)) (IsUnsettled (moment t steps c)) image }
{}

/// In an altered image each logical sector reads as writings of the cells, or of strange bytes.
pub fn altered_image_reads_from_cells()
    ensures { (c : Content) (steps : List Step) (t : ℕ) (image : List (List ℕ)) (k : Keying) (sector : ℕ) →
        IsContentOf (length c.base) c → AreSteps steps → IsKeying k → sector < content_media k c →
        IsAltered (moment t steps c) image →
        ReadFromCells k sector (cell c (take t steps)) (λ n. Unit {0}) image }
{}

/// As the disk stands after some steps, each logical sector reads as the last writings of the cells.
pub fn sectors_read_as_they_stand()
    ensures { (c : Content) (steps : List Step) (k : Keying) (sector : ℕ) →
        IsContentOf (length c.base) c → AreSteps steps → IsKeying k → sector < content_media k c →
        unit_readings k sector (sectors_now k sector (after steps c)) ≡ read k sector (last_writings k sector (cell c steps)) }
{}

/// What is placed in a device sector and then flushed is alone in its cell, until more is placed there.
pub fn flushed_writing_is_alone()
    ensures { (c : Content) (earlier between since : List Step) (n : ℕ) (w : Writing) →
        placed_at between n ≡ [] → placed_at since n ≡ [] →
        cell c (earlier ++ (Place n w ∷ (between ++ (Flush ∷ since)))) n ≡ w ∷ [] }
{}

/// A unit that is alone in its cell reads as it was put in every image that isn't altered.
pub fn settled_unit_reads_as_put()
    ensures { (c : Content) (steps : List Step) (image : List (List ℕ)) (k : Keying) (sector j : ℕ) (p : PutUnit) →
        IsContentOf (length c.base) c → AreSteps steps → IsKeying k → sector < content_media k c → j < units k →
        IsTorn (after steps c) image → cell c steps (unit_place k sector j) ≡ Put p ∷ [] → Matches k sector j (Put p) p →
        ReadsAsPut k p (get_or (unit_readings k sector (sectors_in k sector image)) j (Ok [])) }
{}

/// What a cell holds was ever there.
pub fn cells_were_ever_there()
    ensures { (c : Content) (steps : List Step) (n : ℕ) (w : Writing) →
        Contains (cell c steps n) w → Contains (ever c steps n) w }
{}

/// With authentication each unit of any image is a fault at the byte offset of its device sector, or it reads as one of
/// any list of writings, which is accepted there and has its ciphertext, or its bytes are forged.
pub fn tagged_units_fault_or_are_known_or_forged()
    ensures { (k : Keying) (sector j : ℕ) (image : List (List ℕ)) (ever : List Writing) → k.auth ≢ Off →
        sector * units k + units k ≤ length image → j < units k →
        let n = unit_place k sector j in let there = get_or image n [] in
        let reading = get_or (unit_readings k sector (sectors_in k sector image)) j (Ok []) in
        (reading ≡ Err (512 * n))
        ⊎ ((reading ≡ unit_reading_at k n there) × (ReadsAsOneOf k n there ever ⊎ IsForged k n there ever)) }
{}

/// The moment after the first of the steps is that after these steps alone.
pub fn moment_is_after_first_steps()
    ensures { (t : ℕ) (steps : List Step) (c : Content) → moment t steps c ≡ after (take t steps) c }
{}

/// The device bytes of the units of a logical sector are what it is sealed to.
pub fn puts_are_sealed()
    ensures { (number : ℕ) (k : Keying) (sector : ℕ) (bytes : List ℕ) →
        all_device_bytes (puts_of number k sector bytes) ≡ seal k sector bytes }
{}

/// If the next write has a number of its own, the writings of the steps still fit one another.
pub fn write_has_its_own_number()
    ensures { (next : ℕ) (steps : List Step) (k : Keying) (sector count : ℕ) (bytes : List ℕ) →
        AreStepsBelow next steps → IsKeying k → AreBytes bytes → count * k.sectorsize ≤ length bytes →
        AreStepsBelow (next + 1) (steps ++ data_steps next k sector count bytes) }
{}

/// Steps that place the bytes of events as they are log just these events.
pub fn raw_steps_log_their_events()
    ensures { (events : List Event) → events_of (raw_steps events) ≡ events }
{}

/// Writings fit one another if there are none. They still do if other events follow, and among the first of the steps
/// alone.
pub fn other_steps_fit()
    ensures none { AreStepsBelow 0 [] }
    ensures raw { (next size : ℕ) (steps : List Step) (events : List Event) → AreStepsBelow next steps →
        All (IsEventOf size) events → AreStepsBelow next (steps ++ raw_steps events) }
    ensures first { (next t : ℕ) (steps : List Step) → AreStepsBelow next steps → AreStepsBelow next (take t steps) }
{}

/// If power fails after any of some steps, each logical sector under each keying keeps what `Endures` promises of every
/// image that is left: whole, torn or altered.
pub fn steps_endure_crashes()
    ensures { (c : Content) (steps : List Step) (t : ℕ) (k : Keying) (sector : ℕ) →
        IsContentOf (length c.base) c → AreSteps steps → IsKeying k → sector < content_media k c → Endures c steps t k sector }
{}
