ghost use Rattle.std.specs.Prelude.{◌≡◌};
ghost use Rattle.cdb_names.specs.Reading.{has_lat, has_lon, has_dataset, has_level, has_up, dataset_folder_of, level_folder_of};

use cdb_grid::{Family, Level};

/// The folder of a family's dataset (OGC CDB 1.2 Volume 1, tile naming).
#[derive(Clone, Copy, Debug, PartialEq, Eq)]
pub enum DatasetFolder {
    Elevation,
    MinMaxElevation,
    RmTexture,
}

/// The folder of a level: one for all levels below 0, and one for each level from 0 on (OGC CDB 1.2
/// Volume 1, tile naming).
#[derive(Clone, Copy, Debug, PartialEq, Eq)]
pub enum LevelFolder {
    BelowZero,
    At(u8),
}

/// What the folders above a file say of its tile.
#[derive(Clone, Copy, Debug, PartialEq, Eq)]
pub struct Folder {
    pub lat: i8,
    pub lon: i16,
    pub dataset: DatasetFolder,
    pub level: LevelFolder,
    pub up: u32,
}

/// The folder of a family's dataset.
pub fn dataset_folder(family: Family) -> DatasetFolder
    ensures { result ≡ dataset_folder_of family }
{
    match family {
        Family::Elev => DatasetFolder::Elevation,
        Family::Low | Family::High => DatasetFolder::MinMaxElevation,
        Family::Mat => DatasetFolder::RmTexture,
    }
}

/// The folder of a level.
pub fn level_folder(level: Level) -> LevelFolder
    ensures { result ≡ level_folder_of level.number }
{
    if level.number < 0 {
        LevelFolder::BelowZero
    } else {
        LevelFolder::At(level.number as u8)
    }
}

/// Whether a tile of this latitude may stand in the folder. Without a folder, it may.
pub fn has_latitude(folder: Option<Folder>, lat: i8) -> bool
    ensures { result ≡ has_lat folder lat }
{
    match folder {
        Some(folder) => folder.lat == lat,
        None => true,
    }
}

/// Whether a tile of this longitude may stand in the folder. Without a folder, it may.
pub fn has_longitude(folder: Option<Folder>, lon: i16) -> bool
    ensures { result ≡ has_lon folder lon }
{
    match folder {
        Some(folder) => folder.lon == lon,
        None => true,
    }
}

/// Whether a tile of this family may stand in the folder. Without a folder, it may.
pub fn has_family(folder: Option<Folder>, family: Family) -> bool
    ensures { result ≡ has_dataset folder family }
{
    match folder {
        Some(folder) => folder.dataset == dataset_folder(family),
        None => true,
    }
}

/// Whether a tile of this level may stand in the folder. Without a folder, it may.
pub fn has_level(folder: Option<Folder>, level: Level) -> bool
    ensures { result ≡ has_level folder level.number }
{
    match folder {
        Some(folder) => folder.level == level_folder(level),
        None => true,
    }
}

/// Whether a tile of this row may stand in the folder. Without a folder, it may.
pub fn has_row(folder: Option<Folder>, up: u32) -> bool
    ensures { result ≡ has_up folder up }
{
    match folder {
        Some(folder) => folder.up == up,
        None => true,
    }
}
