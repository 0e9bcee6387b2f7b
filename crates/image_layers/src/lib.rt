//! The disks of images, and what a run begins with.
#![tactic(auto)]

mod any_disk;
mod image_disks;
mod laws;
mod opening;

pub use image_disks::{ImageDisk, open_image};
pub use laws::{images_cover_their_files, images_of_files_are_left};
pub use opening::{Opened, open_all};
