//! The trusted edge: the system's files and streams as disks, a cabinet, sources, sinks and entropy, over whatever
//! opens files; and the words of the command line.
#![tactic(auto)]

mod ask;
mod file_cabinet;
mod file_disk;
mod found;
mod image_file;
mod measuring;
mod opener;
mod opening;
mod random_file;
mod reader;
mod store;
mod streams;
mod system_file;
mod words;
mod writing;

pub use ask::{Ask, KeptAsk};
pub use file_cabinet::FileCabinet;
pub use file_disk::FileDisk;
pub use found::{FileId, FileKind, Found};
pub use image_file::ImageFile;
pub use opener::{Opener, SystemFiles};
pub use random_file::RandomFile;
pub use reader::{Reader, Writer};
pub use store::{Stop, store_file};
pub use streams::{InputSource, OutputSink};
pub use system_file::SystemFile;
pub use words::words_of;
