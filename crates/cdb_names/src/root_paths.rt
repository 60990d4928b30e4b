//! The paths of the root folder, and of the two heads that lie in it.
ghost use Rattle.std.specs.Prelude.{◌≡◌, []};
ghost use Rattle.cdb_model.specs.Names.{head_path, new_head_path};

use arrayvec::ArrayString;

/// The root folder.
pub fn root_folder() -> ArrayString<128>
    ensures { result.bytes ≡ [] }
{
    ArrayString::new()
}

/// The file that names the newest version.
pub fn head_path() -> ArrayString<128>
    ensures { result.bytes ≡ head_path }
{
    let mut path = ArrayString::new();
    path.push_str("HEAD");
    path
}

/// The file that is to take its place.
pub fn new_head_path() -> ArrayString<128>
    ensures { result.bytes ≡ new_head_path }
{
    let mut path = ArrayString::new();
    path.push_str("HEAD.tmp");
    path
}
