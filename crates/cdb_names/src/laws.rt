//! Laws of names and paths, each the contract of a function that does nothing.
ghost use Rattle.std.specs.Prelude.{◌≡◌, ℕ};
ghost use Rattle.cdb_model.specs.Names.{Text, version_folder, head_path, new_head_path, IsUnder};
ghost use Rattle.cdb_names.specs.Lengths.{NamesAreShort, PathsAreShort};
ghost use Rattle.cdb_names.specs.Places.{OneWrongPlaceOfNames, OneWrongPlaceOfPaths, NamesHaveNoWrongPlace, PathsHaveNoWrongPlace};

/// No path stands under the folders of two versions, and neither head stands under the folder of
/// any version.
pub fn versions_are_apart()
    ensures versions { (j k : ℕ) (path : Text) → IsUnder (version_folder j) path
        → IsUnder (version_folder k) path → j ≡ k }
    ensures head { (k : ℕ) → IsUnder (version_folder k) head_path → ⊥ }
    ensures new_head { (k : ℕ) → IsUnder (version_folder k) new_head_path → ⊥ }
{}

/// The place that `read_name` or `read_path` tells of a text is the only one: no text has two
/// places at which its first wrong field begins.
pub fn one_wrong_place()
    ensures names { OneWrongPlaceOfNames }
    ensures paths { OneWrongPlaceOfPaths }
{}

/// The name of a tile, and the path of a version's tile, have no wrong field, at whatever place.
pub fn names_have_no_wrong_place()
    ensures names { NamesHaveNoWrongPlace }
    ensures paths { PathsHaveNoWrongPlace }
{}

/// The name of a tile has at most 48 bytes, and the path of a version's tile at most 106.
pub fn names_are_short()
    ensures names { NamesAreShort }
    ensures paths { PathsAreShort }
{}
