//! The paths of a store's files, and the folders above them.
ghost use Rattle.std.specs.Prelude.{◌≡◌, ◌+◌, ◌<◌, ◌≤◌, ◌++◌, length};
ghost use Rattle.arrayvec.specs.ArrayString.{array_string_len};
ghost use Rattle.cdb_model.specs.Names.{version_folder, tile_folder, path, source_path, record_path, sources_folder, metadata_folder};
ghost use Rattle.cdb_model.specs.declared.limits.TheConstants.{MOST_VERSIONS};

use crate::writing::{
    push_dataset_folder, push_eight, push_four, push_latitude, push_level_folder, push_longitude,
    push_number, write_name,
};
use arrayvec::ArrayString;
use cdb_grid::Tile;

/// The folder of a version: `V` and eight digits.
pub fn version_folder(version: u32) -> ArrayString<128>
    requires from_one { 1 ≤ version }
    requires to_next { version ≤ MOST_VERSIONS + 1 }
    ensures { result.bytes ≡ version_folder version }
{
    let mut text = ArrayString::new();
    push_version(&mut text, version);
    text
}

fn push_version(text: &mut ArrayString<128>, version: u32)
    requires small { version ≤ MOST_VERSIONS + 1 }
    requires room { array_string_len text.old + 9 ≤ 128 }
    ensures bytes { text.new.bytes ≡ text.old.bytes ++ version_folder version }
    ensures len { array_string_len text.new ≡ array_string_len text.old + 9 }
{
    text.push('V');
    push_eight(text, version);
}

fn push_folder(text: &mut ArrayString<128>, version: u32, tile: &Tile)
    requires small { version ≤ MOST_VERSIONS + 1 }
    requires room { array_string_len text.old ≡ 0 }
    ensures bytes { text.new.bytes ≡ text.old.bytes ++ tile_folder version tile.now }
    ensures len { array_string_len text.new ≤ 58 }
{
    push_version(text, version);
    text.push_str("/Tiles/");
    push_latitude(text, tile.cell);
    text.push_str("/");
    push_longitude(text, tile.cell);
    text.push_str("/");
    push_dataset_folder(text, tile.family);
    text.push_str("/");
    push_level_folder(text, tile.level);
    text.push_str("/U");
    push_number(text, tile.up);
}

/// The folder of a version's tile, from the version's folder on (OGC CDB 1.2 Volume 1, folder
/// hierarchy of tiled datasets).
pub fn folder_of(version: u32, tile: &Tile) -> ArrayString<128>
    requires from_one { 1 ≤ version }
    requires to_last { version ≤ MOST_VERSIONS }
    ensures { result.bytes ≡ tile_folder version tile.now }
{
    let mut text = ArrayString::new();
    push_folder(&mut text, version, tile);
    text
}

/// The path of a version's tile, from the version's folder on (OGC CDB 1.2 Volume 1, folder
/// hierarchy of tiled datasets).
pub fn write_path(version: u32, tile: &Tile) -> ArrayString<128>
    requires from_one { 1 ≤ version }
    requires to_last { version ≤ MOST_VERSIONS }
    ensures { result.bytes ≡ path version tile.now }
{
    let mut text = ArrayString::new();
    push_folder(&mut text, version, tile);
    text.push_str("/");
    text.push_str(write_name(tile).as_str());
    text
}

/// The folder of a version's source files.
pub fn sources_folder(version: u32) -> ArrayString<128>
    requires from_one { 1 ≤ version }
    requires to_last { version ≤ MOST_VERSIONS }
    ensures { result.bytes ≡ sources_folder version }
{
    let mut text = ArrayString::new();
    push_version(&mut text, version);
    text.push_str("/Sources");
    text
}

/// The path of a version's source file of this number.
pub fn source_path(version: u32, number: u32) -> ArrayString<128>
    requires from_one { 1 ≤ version }
    requires to_last { version ≤ MOST_VERSIONS }
    requires number_from_one { 1 ≤ number }
    requires number_to_last { number ≤ 64 }
    ensures { result.bytes ≡ source_path version number }
{
    let mut text = ArrayString::new();
    push_version(&mut text, version);
    text.push_str("/Sources/S");
    push_four(&mut text, number);
    text
}

/// The folder of a version's record.
pub fn metadata_folder(version: u32) -> ArrayString<128>
    requires from_one { 1 ≤ version }
    requires to_last { version ≤ MOST_VERSIONS }
    ensures { result.bytes ≡ metadata_folder version }
{
    let mut text = ArrayString::new();
    push_version(&mut text, version);
    text.push_str("/Metadata");
    text
}

/// The path of a version's record.
pub fn record_path(version: u32) -> ArrayString<128>
    requires from_one { 1 ≤ version }
    requires to_last { version ≤ MOST_VERSIONS }
    ensures { result.bytes ≡ record_path version }
{
    let mut text = ArrayString::new();
    push_version(&mut text, version);
    text.push_str("/Metadata/record");
    text
}
