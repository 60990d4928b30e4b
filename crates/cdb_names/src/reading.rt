//! Reading a file name, field by field, up to the first wrong one.
ghost use Rattle.std.specs.Prelude.{◌≡◌, ℕ, ◌-◌, ◌+◌, ◌<◌, ◌≤◌, ℤ, negsuc, pos, ◌≤ℤ◌, length, codes, option_map, IfSome, Option, None, Result, Ok, IfOk, IfErr};
ghost use Rattle.cdb_grid.specs.declared.tile.Tile.{Tile};
ghost use Rattle.cdb_model.specs.Names.{Text, name, name_fields, FirstWrong};
ghost use Rattle.cdb_names.specs.Fields.{across, numbered_at};
ghost use Rattle.cdb_names.specs.Reading.{field_or_place, wrong_at, lat_in, lon_in, family_in, level_in, up_in, name_at, spelled_tile, IsReadAs};

use crate::fields::{read_family, read_latitude, read_level, read_longitude, read_numbered};
use crate::folder::{Folder, has_family, has_latitude, has_level, has_longitude, has_row};
use cdb_grid::{Family, Geocell, Level, Tile, tiles_across};
use cdb_model::NameError;

/// The error at the place where the rest of a text begins.
pub fn wrong(text: &[u8], rest: &[u8]) -> NameError
    requires within { length rest.now ≤ length text.now }
    requires near { length text.now ≤ length rest.now + 200 }
    ensures { result ≡ wrong_at text.now rest.now }
{
    NameError {
        place: (text.len() - rest.len()) as u32,
    }
}

/// A field that was read, or the place where it begins.
pub fn field_of<X: Drop>(text: &[u8], rest: &[u8], read: Option<X>) -> Result<X, NameError>
    requires within { length rest.now ≤ length text.now }
    requires near { length text.now ≤ length rest.now + 200 }
    ensures { result ≡ field_or_place text.now rest.now read }
{
    match read {
        Some(x) => Ok(x),
        None => Err(wrong(text, rest)),
    }
}

#[tactic(auto, unfolding(crate::specs::Reading::lat_in))]
fn latitude_in(folder: Option<Folder>, text: &[u8]) -> Option<(i8, &[u8])>
    ensures read { option_map (λ p. (p.0, p.1.now)) result ≡ lat_in folder text.now }
    ensures near { IfSome result (λ p. length text.now ≡ length p.1.now + 3) }
    ensures south { IfSome result (λ p. negsuc 89 ≤ℤ p.0) }
    ensures north { IfSome result (λ p. p.0 ≤ℤ pos 89) }
{
    let (lat, rest) = read_latitude(text)?;
    if !has_latitude(folder, lat) {
        return None;
    }
    Some((lat, rest))
}

#[tactic(auto, unfolding(crate::specs::Reading::lon_in))]
fn longitude_in(folder: Option<Folder>, lat: i8, text: &[u8]) -> Option<(Geocell, &[u8])>
    requires south { negsuc 89 ≤ℤ lat }
    requires north { lat ≤ℤ pos 89 }
    ensures read { option_map (λ p. (p.0.lon, p.1.now)) result ≡ lon_in folder lat text.now }
    ensures near { IfSome result (λ p. length text.now ≡ length p.1.now + 4) }
    ensures same { IfSome result (λ p. p.0.lat ≡ lat) }
{
    let (cell, rest) = read_longitude(lat, text)?;
    if !has_longitude(folder, cell.lon) {
        return None;
    }
    Some((cell, rest))
}

#[tactic(auto, unfolding(crate::specs::Reading::family_in))]
fn family_in_folder(folder: Option<Folder>, text: &[u8]) -> Option<(Family, &[u8])>
    ensures read { option_map (λ p. (p.0, p.1.now)) result ≡ family_in folder text.now }
    ensures near { IfSome result (λ p. length text.now ≡ length p.1.now + 15) }
{
    let (family, rest) = read_family(text)?;
    if !has_family(folder, family) {
        return None;
    }
    Some((family, rest))
}

#[tactic(auto, unfolding(crate::specs::Reading::level_in))]
fn level_in_folder(folder: Option<Folder>, text: &[u8]) -> Option<(Level, &[u8])>
    ensures read { option_map (λ p. (p.0.number, p.1.now)) result ≡ level_in folder text.now }
    ensures near { IfSome result (λ p. length text.now ≤ length p.1.now + 5) }
    ensures shorter { IfSome result (λ p. length p.1.now ≤ length text.now) }
{
    let (level, rest) = read_level(text)?;
    if !has_level(folder, level) {
        return None;
    }
    Some((level, rest))
}

#[tactic(auto, unfolding(crate::specs::Reading::up_in))]
fn row_in(folder: Option<Folder>, level: Level, text: &[u8]) -> Option<(u32, &[u8])>
    ensures read { option_map (λ p. (p.0, p.1.now)) result ≡ up_in folder (across level.number) text.now }
    ensures near { IfSome result (λ p. length text.now ≤ length p.1.now + 9) }
    ensures small { IfSome result (λ p. p.0 < across level.number) }
    ensures shorter { IfSome result (λ p. length p.1.now ≤ length text.now) }
{
    let (up, rest) = read_numbered(b"_U", tiles_across(level), text)?;
    if !has_row(folder, up) {
        return None;
    }
    Some((up, rest))
}

fn column_at(level: Level, text: &[u8]) -> Option<(u32, &[u8])>
    ensures read { option_map (λ p. (p.0, p.1.now)) result ≡ numbered_at (codes "_R") (across level.number) text.now }
    ensures near { IfSome result (λ p. length text.now ≤ length p.1.now + 9) }
    ensures small { IfSome result (λ p. p.0 < across level.number) }
    ensures shorter { IfSome result (λ p. length p.1.now ≤ length text.now) }
{
    read_numbered(b"_R", tiles_across(level), text)
}

/// The tile in the folder whose file name is this end of a text.
#[tactic(auto, unfolding(crate::specs::Reading::name_at))]
pub fn read_name_in(folder: Option<Folder>, text: &[u8], end: &[u8]) -> Result<Tile, NameError>
    requires within { length end.now ≤ length text.now }
    requires near { length text.now ≤ length end.now + 100 }
    ensures { IsReadAs spelled_tile result (name_at folder text.now end.now) }
{
    let (lat, rest) = field_of(text, end, latitude_in(folder, end))?;
    let (cell, rest) = field_of(text, rest, longitude_in(folder, lat, rest))?;
    let (family, rest) = field_of(text, rest, family_in_folder(folder, rest))?;
    let (level, rest) = field_of(text, rest, level_in_folder(folder, rest))?;
    let (up, rest) = field_of(text, rest, row_in(folder, level, rest))?;
    let (right, rest) = field_of(text, rest, column_at(level, rest))?;
    if rest != b".tif".as_slice() {
        return Err(wrong(text, rest));
    }
    Ok(Tile {
        family,
        cell,
        level,
        up,
        right,
    })
}

/// The tile whose file name the text is (OGC CDB 1.2 Volume 1, tile naming). Else the error's
/// `place` is the byte of the text, from 0, at which its first wrong field begins.
pub fn read_name(text: &[u8]) -> Result<Tile, NameError>
    ensures found { IfOk result (λ t. text.now ≡ name t) }
    ensures only { (t : Tile) → text.now ≡ name t → result ≡ Ok t }
    ensures wrong { IfErr result (λ e. FirstWrong name_fields text.now e.place) }
{
    read_name_in(None, text, text)
}
