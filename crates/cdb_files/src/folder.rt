ghost use Rattle.std.specs.Prelude.{◌≡◌};
ghost use Rattle.cdb_model.specs.Maps.{folder_above};

use crate::Path;

/// The folder in which `path` lies: the text before its last slash, or the root where there is none.
pub fn folder_above(path: &Path) -> Path
    ensures { result.bytes ≡ folder_above path.now.bytes }
{
    let mut folder = *path;
    match path.as_str().rfind('/') {
        Some(slash) => folder.truncate(slash),
        None => folder.clear(),
    }
    folder
}
