//! A provider that is a disk again.
#![tactic(auto)]

mod laws;
mod provider_disk;

pub use laws::{
    crash_images_are_opened, crashes_below_are_read_above, device_sectors_open_by_themselves,
    kept_values_are_opened, moments_are_opened, survivors_below_are_read_above,
};
pub use provider_disk::ProviderDisk;
