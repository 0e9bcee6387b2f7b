//! The commands that change the keys of a GELI provider in its metadata (geli(8)).
//!
//! `init` makes a new provider of a disk, `setkey` puts a new key into a slot, and `delkey` takes keys out. No call
//! allocates memory.
#![tactic(auto)]

mod delete_keys;
mod laws;
mod new_provider;
mod options;
mod overwriting;
mod random;
mod set_key;
mod storing;
mod types;

pub use delete_keys::delkey;
pub use laws::{
    cleared_slot_opens_no_more, delkey_keeps_the_other_key, delkey_leaves_old_or_cleared,
    init_leaves_old_or_new, iterations_stay_for_the_other_key, new_metadata_are_accepted,
    new_slot_opens, other_key_is_made_again, setkey_leaves_old_or_new, what_init_makes_is_of_use,
    what_setkey_makes_is_of_use,
};
pub use new_provider::init;
pub use options::InitOptions;
pub use overwriting::Which;
pub use set_key::setkey;
