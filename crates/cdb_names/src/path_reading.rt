//! Reading a path, field by field, up to the first wrong one.
ghost use Rattle.std.specs.Prelude.{◌≡◌, ℕ, ◌+◌, ◌<◌, ◌≤◌, ◌^◌, ℤ, negsuc, pos, ◌≤ℤ◌, length, codes, option_map, IfSome, IfOk, IfErr, Ok};
ghost use Rattle.cdb_grid.specs.declared.tile.Tile.{Tile};
ghost use Rattle.cdb_model.specs.Names.{path, path_fields, FirstWrong};
ghost use Rattle.cdb_names.specs.Fields.{after, across};
ghost use Rattle.cdb_names.specs.inside.Fields.{four_at, version_of, version_at, version_folder_at, lat_folder_at, lon_folder_at, dataset_folder_at, fine_folder_at, level_folder_at, up_folder_at};
ghost use Rattle.cdb_names.specs.Reading.{spelled_tile, IsReadAs};
ghost use Rattle.cdb_names.specs.inside.Reading.{folders_at, path_at};

use crate::digits::read_two;
use crate::fields::{read_after, read_latitude, read_longitude, read_numbered};
use crate::folder::{DatasetFolder, Folder, level_folder};
use crate::reading::{field_of, read_name_in};
use cdb_grid::{Geocell, Level, Tile, tiles_across};
use cdb_model::{MOST_VERSIONS, NameError};

#[tactic(auto, unfolding(crate::specs::inside::Fields::four_at))]
fn read_four(text: &[u8]) -> Option<(u32, &[u8])>
    ensures read { option_map (λ p. (p.0, p.1.now)) result ≡ four_at text.now }
    ensures near { IfSome result (λ p. length text.now ≡ length p.1.now + 4) }
    ensures small { IfSome result (λ p. p.0 < 10000) }
{
    let (high, rest) = read_two(text)?;
    let (low, rest) = read_two(rest)?;
    Some((u32::from(high) * 100 + u32::from(low), rest))
}

fn version(high: u32, low: u32) -> Option<u32>
    requires high { high < 10000 }
    requires low { low < 10000 }
    ensures { result ≡ version_of high low }
{
    let version = high * 10000 + low;
    (0 < version && version <= MOST_VERSIONS).then_some(version)
}

#[tactic(auto, unfolding(crate::specs::inside::Fields::version_at))]
fn read_version(text: &[u8]) -> Option<(u32, &[u8])>
    ensures read { option_map (λ p. (p.0, p.1.now)) result ≡ version_at text.now }
    ensures near { IfSome result (λ p. length text.now ≡ length p.1.now + 9) }
{
    let rest = read_after(b"V", text)?;
    let (high, rest) = read_four(rest)?;
    let (low, rest) = read_four(rest)?;
    let version = version(high, low)?;
    Some((version, rest))
}

#[tactic(auto, unfolding(crate::specs::inside::Fields::version_folder_at))]
fn read_version_folder(text: &[u8]) -> Option<(u32, &[u8])>
    ensures read { option_map (λ p. (p.0, p.1.now)) result ≡ version_folder_at text.now }
    ensures near { IfSome result (λ p. length text.now ≡ length p.1.now + 10) }
{
    let (version, rest) = read_version(text)?;
    let rest = read_after(b"/", rest)?;
    Some((version, rest))
}

fn read_tiles_folder(text: &[u8]) -> Option<&[u8]>
    ensures read { option_map (λ r. r.now) result ≡ after (codes "Tiles/") text.now }
    ensures near { IfSome result (λ r. length text.now ≡ length r.now + 6) }
{
    read_after(b"Tiles/", text)
}

#[tactic(auto, unfolding(crate::specs::inside::Fields::lat_folder_at))]
fn read_latitude_folder(text: &[u8]) -> Option<(i8, &[u8])>
    ensures read { option_map (λ p. (p.0, p.1.now)) result ≡ lat_folder_at text.now }
    ensures near { IfSome result (λ p. length text.now ≡ length p.1.now + 4) }
    ensures south { IfSome result (λ p. negsuc 89 ≤ℤ p.0) }
    ensures north { IfSome result (λ p. p.0 ≤ℤ pos 89) }
{
    let (lat, rest) = read_latitude(text)?;
    let rest = read_after(b"/", rest)?;
    Some((lat, rest))
}

#[tactic(auto, unfolding(crate::specs::inside::Fields::lon_folder_at))]
fn read_longitude_folder(lat: i8, text: &[u8]) -> Option<(Geocell, &[u8])>
    requires south { negsuc 89 ≤ℤ lat }
    requires north { lat ≤ℤ pos 89 }
    ensures read { option_map (λ p. (p.0.lon, p.1.now)) result ≡ lon_folder_at lat text.now }
    ensures near { IfSome result (λ p. length text.now ≡ length p.1.now + 5) }
    ensures same { IfSome result (λ p. p.0.lat ≡ lat) }
{
    let (cell, rest) = read_longitude(lat, text)?;
    let rest = read_after(b"/", rest)?;
    Some((cell, rest))
}

#[tactic(auto, unfolding(crate::specs::inside::Fields::dataset_folder_at))]
fn read_dataset_folder(text: &[u8]) -> Option<(DatasetFolder, &[u8])>
    ensures read { option_map (λ p. (p.0, p.1.now)) result ≡ dataset_folder_at text.now }
    ensures near { IfSome result (λ p. length text.now ≤ length p.1.now + 20) }
    ensures shorter { IfSome result (λ p. length p.1.now ≤ length text.now) }
{
    if text.starts_with(b"001_Elevation/") {
        let (_, rest) = text.split_at(14);
        Some((DatasetFolder::Elevation, rest))
    } else if text.starts_with(b"002_MinMaxElevation/") {
        let (_, rest) = text.split_at(20);
        Some((DatasetFolder::MinMaxElevation, rest))
    } else if text.starts_with(b"005_RMTexture/") {
        let (_, rest) = text.split_at(14);
        Some((DatasetFolder::RmTexture, rest))
    } else {
        None
    }
}

#[tactic(auto, unfolding(crate::specs::inside::Fields::fine_folder_at))]
fn read_fine_folder(text: &[u8]) -> Option<(Level, &[u8])>
    ensures read { option_map (λ p. (p.0.number, p.1.now)) result ≡ fine_folder_at text.now }
    ensures near { IfSome result (λ p. length text.now ≡ length p.1.now + 3) }
{
    let rest = read_after(b"L", text)?;
    let (n, rest) = read_two(rest)?;
    if n >= 24 {
        return None;
    }
    let level = Level { number: n as i8 };
    Some((level, rest))
}

/// A level of the folder: -1 stands for all below 0.
#[tactic(auto, unfolding(crate::specs::inside::Fields::level_folder_at))]
fn read_level_folder(text: &[u8]) -> Option<(Level, &[u8])>
    ensures read { option_map (λ p. (p.0.number, p.1.now)) result ≡ level_folder_at text.now }
    ensures near { IfSome result (λ p. length text.now ≤ length p.1.now + 4) }
    ensures shorter { IfSome result (λ p. length p.1.now ≤ length text.now) }
{
    if text.starts_with(b"LC/") {
        let (_, rest) = text.split_at(3);
        return Some((Level { number: -1 }, rest));
    }
    let (level, rest) = read_fine_folder(text)?;
    let rest = read_after(b"/", rest)?;
    Some((level, rest))
}

#[tactic(auto, unfolding(crate::specs::inside::Fields::up_folder_at))]
fn read_row_folder(level: Level, text: &[u8]) -> Option<(u32, &[u8])>
    ensures read { option_map (λ p. (p.0, p.1.now)) result ≡ up_folder_at (across level.number) text.now }
    ensures near { IfSome result (λ p. length text.now ≤ length p.1.now + 9) }
    ensures shorter { IfSome result (λ p. length p.1.now ≤ length text.now) }
{
    let (up, rest) = read_numbered(b"U", tiles_across(level), text)?;
    let rest = read_after(b"/", rest)?;
    Some((up, rest))
}

/// The version, what the folders say of the tile, and the file name.
#[tactic(auto, unfolding(crate::specs::inside::Reading::folders_at))]
fn read_folders(text: &[u8]) -> Result<(u32, Folder, &[u8]), NameError>
    ensures read { IsReadAs (λ p. (p.0, p.1, p.2.now)) result (folders_at text.now) }
    ensures near { IfOk result (λ p. length text.now ≤ length p.2.now + 100) }
    ensures shorter { IfOk result (λ p. length p.2.now ≤ length text.now) }
{
    let (version, rest) = field_of(text, text, read_version_folder(text))?;
    let rest = field_of(text, rest, read_tiles_folder(rest))?;
    let (lat, rest) = field_of(text, rest, read_latitude_folder(rest))?;
    let (cell, rest) = field_of(text, rest, read_longitude_folder(lat, rest))?;
    let (dataset, rest) = field_of(text, rest, read_dataset_folder(rest))?;
    let (level, rest) = field_of(text, rest, read_level_folder(rest))?;
    let (up, rest) = field_of(text, rest, read_row_folder(level, rest))?;
    let folder = Folder {
        lat,
        lon: cell.lon,
        dataset,
        level: level_folder(level),
        up,
    };
    Ok((version, folder, rest))
}

#[tactic(auto, unfolding(crate::specs::inside::Reading::path_at))]
fn read_whole_path(text: &[u8]) -> Result<(u32, Tile), NameError>
    ensures { IsReadAs (λ p. (p.0, spelled_tile p.1)) result (path_at text.now) }
{
    let (version, folder, name) = read_folders(text)?;
    let tile = read_name_in(Some(folder), text, name)?;
    Ok((version, tile))
}

/// The version, from 1 to 4,096, and the tile whose path the text is, the folders of the tile as in
/// OGC CDB 1.2 Volume 1, tile naming. Else the error's `place` is the byte of
/// the text, from 0, at which its first wrong field begins.
pub fn read_path(text: &[u8]) -> Result<(u32, Tile), NameError>
    ensures version { IfOk result (λ p. (1 ≤ p.0) × (p.0 ≤ MOST_VERSIONS)) }
    ensures found { IfOk result (λ p. text.now ≡ path p.0 p.1) }
    ensures only { (version : ℕ) (t : Tile) → 1 ≤ version → version ≤ MOST_VERSIONS → text.now ≡ path version t
        → result ≡ Ok (version, t) }
    ensures wrong { IfErr result (λ e. FirstWrong path_fields text.now e.place) }
{
    read_whole_path(text)
}
