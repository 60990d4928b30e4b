use arrayvec::ArrayString;
use cdb_files::Path;

/// The name of a file or a folder for the system: the folder of the store or of the shelf, of at
/// most 128 bytes, a slash, and a path in it, of at most 128.
pub type Place = ArrayString<257>;

/// Where `path` stands under the folder `root`.
pub fn place(root: &Path, path: &str) -> Place {
    let mut whole = Place::new();
    add(&mut whole, root.as_str());
    if !root.is_empty() && !path.is_empty() {
        add(&mut whole, "/");
    }
    add(&mut whole, path);
    whole
}

/// Adds a part, for which there is room.
fn add(whole: &mut Place, part: &str) {
    let _ = whole.try_push_str(part);
}
