//! What holds of every run over images.
ghost use Rattle.image_run.specs.Surviving.{EachRunSurvives};

use block_traits::Disk;
use file_edge::{FileDisk, ImageFile};

/// Each drawer that is there at entry, after any line or at exit of a run over images did its steps in the file of its
/// image, also one that a later line takes out. If a disk of that file alone reports its sectors, whatever a power
/// failure leaves in the file at any moment of them reads as promised.
pub fn drawers_survive_in_their_files<F: ImageFile>()
    ensures { EachRunSurvives (⟦<FileDisk<F> as Disk>⟧) F.told }
{}
