//! What holds of two disks as one and of writes that wait, whatever the disks below.
ghost use Rattle.std.specs.Prelude.{◌≡◌, ◌+◌, ◌-◌, ◌<◌, ◌≤◌, ◌∷◌, [], ℕ, All, List, ◌++◌, Contains, take};
ghost use Rattle.block_traits.specs.declared.disk.Event.{Event};
ghost use Rattle.block_traits.specs.declared.disk.Event.TheVariants.{Flush};
ghost use Rattle.block_traits.specs.Content.{Content, IsEventOf, kept_after, kept_values, logged, with_events};
ghost use Rattle.block_traits.specs.Disk.{DiskState};
ghost use Rattle.disk_layers.specs.declared.write_behind.Waiting.{Waiting};
ghost use Rattle.disk_layers.specs.Concat.{BothLog, first_events, second_events};
ghost use Rattle.disk_layers.specs.Covering.{CoversContent, KeepsNoMore};
ghost use Rattle.disk_layers.specs.History.{moved, unflushed};
ghost use Rattle.disk_layers.specs.Joined.{CoversEach};
ghost use Rattle.disk_layers.specs.Waiting.{writes_of};
ghost use Rattle.disk_layers.specs.WriteBehind.{Behind, order};

/// After calls on two disks that are one, one after the other, each disk has logged the events of its own sectors among
/// those of all.
pub fn calls_on_both_add_up()
    ensures { (events more : List Event) (a middle_a new_a b middle_b new_b : DiskState) →
        BothLog events a middle_a b middle_b → BothLog more middle_a new_a middle_b new_b → BothLog (events ++ more) a new_a b new_b }
{}

/// What a sector of two disks that are one may hold if power fails after some events is what its sector of the first or
/// of the second may hold.
pub fn sectors_keep_what_their_disk_keeps()
    ensures first { (size n : ℕ) (events : List Event) (c : Content) → n < size →
        kept_values (with_events (first_events size events) c) n ≡ kept_after events n (kept_values c n) }
    ensures second { (size n : ℕ) (events : List Event) (c : Content) → size ≤ n →
        kept_values (with_events (second_events size events) c) (n - size) ≡ kept_after events n (kept_values c (n - size)) }
{}

/// What a sector below a `WriteBehind` may hold if power fails, it may also hold after the writes that wait.
pub fn values_kept_below_are_kept_in_order()
    ensures { (c : Content) (waiting : List Waiting) (n : ℕ) (value : List ℕ) → Contains (kept_values c n) value →
        Contains (kept_values (with_events (writes_of waiting) c) n) value }
{}

/// Over several calls the order grows by the events of each, one after the other.
pub fn orders_add_up()
    ensures { (events more : List Event) (old middle new : Behind) → order middle ≡ logged events (order old) →
        order new ≡ logged more (order middle) → order new ≡ logged (events ++ more) (order old) }
{}

/// While writes that wait are done below, one after the other, and then a flush, whatever a crash may leave below is among
/// what it may leave of what was reported before.
pub fn waiting_writes_are_covered_at_each_moment()
    ensures { (c above : Content) (waiting : List Waiting) (count n : ℕ) → CoversContent (with_events (writes_of waiting) c) above →
        KeepsNoMore (kept_values (with_events (take count (writes_of waiting ++ Flush ∷ [])) c) n) (kept_values above n) }
{}

/// If one of two disks that are one did some events and the other none, both are covered by what was reported before and
/// the writes among them. So they are within a call too, whose events are those of the first, and then of the second.
pub fn events_of_one_disk_are_covered()
    ensures first { (size : ℕ) (events : List Event) (a b above : Content) → All (IsEventOf size) events → CoversEach size a b above →
        CoversEach size (with_events events a) b (with_events (unflushed events) above) }
    ensures second { (size : ℕ) (events : List Event) (a b above : Content) → CoversEach size a b above →
        CoversEach size a (with_events events b) (with_events (moved size (unflushed events)) above) }
{}
