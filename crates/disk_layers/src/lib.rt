//! Layers that are disks again: two disks as one, and writes that wait for a disk.
#![tactic(auto)]

mod concat;
mod history;
mod laws;
mod layer;
mod noting;
mod write_behind;

pub use concat::Concat;
pub use laws::{
    calls_on_both_add_up, events_of_one_disk_are_covered, orders_add_up,
    sectors_keep_what_their_disk_keeps, values_kept_below_are_kept_in_order,
    waiting_writes_are_covered_at_each_moment,
};
pub use layer::{Layer, Parts, layer_of, parts_of};
pub use write_behind::{Waiting, WriteBehind};
