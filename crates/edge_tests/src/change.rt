//! What names were given, in memory.
ghost use Rattle.std.specs.Prelude.{◌≡◌, ◌<◌, IfSome, length};

use file_edge::FileId;

/// What a name was given: a file, and which one, if that is reported; or nothing.
#[derive(Drop)]
pub struct Change {
    /// The name.
    pub name: String,
    /// Which file it is, if that is reported.
    pub id: Option<FileId>,
    /// Its bytes; `None`: the name has nothing from then on.
    pub bytes: Option<Vec<u8>>,
}

impl Change {
    ghost use Rattle.edge_tests.specs.Change.{after_changes, named_at, nothing};

    /// The place of the last change of a name.
    pub fn last_of(changes: &[Change], name: &str) -> Option<usize>
        ensures named { named_at changes.now result ≡ after_changes nothing changes.now name.now }
        ensures inside { IfSome result (λ place. place < length changes.now) }
    {
        let mut last = None;
        for (i, change) in changes.iter().enumerate() {
            if change.name.as_str() == name {
                last = Some(i);
            }
        }
        last
    }
}
