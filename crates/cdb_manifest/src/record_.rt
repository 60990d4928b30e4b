ghost use Rattle.std.specs.Prelude.{◌≡◌, List};
ghost use Rattle.cdb_grid.specs.declared.tile.Tile as grid;
ghost use Rattle.cdb_source.specs.declared.head.SourceHead as sources;
ghost use Rattle.cdb_manifest.specs.Entries.{IsRecord};

use cdb_grid::Tile;
use cdb_source::SourceHead;
use std::marker::Model;

/// The heads of the sources of a publication, in the order of their numbers.
#[derive(Debug, Drop)]
pub struct Heads {
    items: Vec<SourceHead>,
}

impl Model for Heads {
    ghost Value = { List sources.SourceHead };

    ghost view = { λ heads. heads.items.items };
}

impl Heads {
    /// The heads, in the order of their numbers.
    pub fn as_slice(&self) -> &[SourceHead]
        ensures { result.now ≡ self.now }
    {
        self.items.as_slice()
    }

    /// Gives the heads back without taking memory.
    pub fn into_vec(self) -> Vec<SourceHead>
        ensures { result.items ≡ self }
    {
        self.items
    }
}

impl From<Vec<SourceHead>> for Heads {
    ghost from_gives = { λ items heads. heads ≡ items.items };

    fn from(items: Vec<SourceHead>) -> Heads {
        Heads { items }
    }
}

/// The tiles of a publication, in the stated order (that of `Tile`'s `Ord`), each once.
#[derive(Debug, Drop)]
pub struct Tiles {
    items: Vec<Tile>,
}

impl Model for Tiles {
    ghost Value = { List grid.Tile };

    ghost view = { λ tiles. tiles.items.items };
}

impl Tiles {
    /// The tiles, in the stated order, each once.
    pub fn as_slice(&self) -> &[Tile]
        ensures { result.now ≡ self.now }
    {
        self.items.as_slice()
    }

    /// Gives the tiles back without taking memory.
    pub fn into_vec(self) -> Vec<Tile>
        ensures { result.items ≡ self }
    {
        self.items
    }
}

impl From<Vec<Tile>> for Tiles {
    ghost from_gives = { λ items tiles. tiles ≡ items.items };

    fn from(items: Vec<Tile>) -> Tiles {
        Tiles { items }
    }
}

/// The record of a publication: its version, from 1 to 4,096, the heads of its 1 to 64 sources, and
/// at most 16,384 tiles in the stated order, each once.
#[derive(Debug, Drop)]
pub struct Record {
    pub version: u32,
    pub heads: Heads,
    pub tiles: Tiles,
    pub ghost in_range: { IsRecord version heads tiles },
}
