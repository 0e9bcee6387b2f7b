//! How an image is opened.
ghost use Rattle.std.specs.Prelude.{◌≡◌, IfOk, false, true};
ghost use Rattle.file_edge.specs.ImageFile.{IsUncalled};
ghost use Rattle.file_edge.specs.Opening.{AsksImage, OpensImage};

use crate::opener::Opener;
use std::fs::OpenOptions;
use std::io;

/// Opens an image to be read and written; or only to be read, if writing isn't asked for or is refused.
pub(crate) fn open_image<O: Opener>(
    opener: &mut O,
    changes: bool,
    name: &str,
) -> io::Result<O::File>
    ensures opens { OpensImage O.answers opener.old changes name.now result }
    ensures uncalled { IfOk result (λ file. IsUncalled (O.File.calls file)) }
    ensures free { IfOk result (λ file. O.File.held file ≡ false) }
    ensures told { O.told opener.new ≡ O.told opener.old }
    ensures asked { AsksImage O.asked opener.old changes name.now opener.new }
{
    if changes {
        return open_to_change(opener, name);
    }
    opener.open(OpenOptions::new().read(true), name)
}

fn open_to_change<O: Opener>(opener: &mut O, name: &str) -> io::Result<O::File>
    ensures opens { OpensImage O.answers opener.old true name.now result }
    ensures uncalled { IfOk result (λ file. IsUncalled (O.File.calls file)) }
    ensures free { IfOk result (λ file. O.File.held file ≡ false) }
    ensures told { O.told opener.new ≡ O.told opener.old }
    ensures asked { AsksImage O.asked opener.old true name.now opener.new }
{
    if let Ok(file) = opener.open(OpenOptions::new().read(true).write(true), name) {
        return Ok(file);
    }
    opener.open(OpenOptions::new().read(true), name)
}
