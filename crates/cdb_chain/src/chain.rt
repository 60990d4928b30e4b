ghost use Rattle.std.specs.Prelude.{◌≡◌, ◌≤◌, ◌<◌, ◌+◌, ◌-◌, ◌++◌, ◌∷◌, ◌⊎◌, List, [], Some, length, slice_get, OnOk};
ghost use Rattle.std.specs.Prelude.{IfSome, MatchOption, vec_len, vec_capacity};
ghost use Rattle.std.specs.List.{sum_by};
ghost use Rattle.std.specs.List.Sorted.{IsSorted};
ghost use Rattle.cdb_source.specs.Reached.{IsTouched};
ghost use Rattle.cdb_source.specs.declared.source.Source as given;
ghost use Rattle.cdb_model.specs.Publications.{heads_of};
ghost use Rattle.cdb_manifest.specs.declared.record_.Record as manifest;
ghost use Rattle.cdb_chain.specs.Publications.{AreRecords};
ghost use Rattle.cdb_chain.specs.Versions.{place_cmp, places_of, IsFound};
ghost use Rattle.cdb_chain.specs.inside.Versions.{IsPlaced};
ghost use Rattle.cdb_model.specs.declared.limits.TheConstants.{MOST_VERSIONS};

use crate::place::Place;
use cdb_grid::Tile;
use cdb_manifest::Record;
use std::alloc::AllocError;
use std::marker::Model;

/// The records of the versions from 1 on, and an index of their tiles. Contracts see the records, and
/// `spare`: 0 where a further record would take memory, else one more than the number of tiles that
/// one further record may have without any memory being taken.
#[derive(Drop)]
pub struct Chain {
    pub(crate) records: Vec<Record>,
    pub(crate) index: Vec<Place>,
}

impl Model for Chain {
    ghost use Rattle.std.specs.Prelude.{vec_len, vec_capacity};
    ghost use Rattle.cdb_chain.specs.Versions.{Versions, spare_of, AreVersions};

    ghost Value = { Versions };

    ghost view = { λ c. record {
      records = c.records.items;
      spare = spare_of (vec_len c.records) (vec_capacity c.records) (vec_len c.index) (vec_capacity c.index);
    } };

    ghost invariant = { λ c. AreVersions c.records.items c.index.items };
}

/// Puts the tiles of a record behind the index. There is room.
pub(crate) fn push_places(index: &mut Vec<Place>, version: u32, tiles: &[Tile])
    requires { vec_len index.old + length tiles.now ≤ vec_capacity index.old }
    ensures { index.new.items ≡ index.old.items ++ places_of version tiles.now }
{
    for tile in tiles {
        let place = Place {
            tile: *tile,
            version,
        };
        index.push(place).unwrap();
    }
}

/// The greatest version up to `version` with which the tile stands in the index.
fn newest_in(index: &[Place], version: u32, tile: &Tile) -> Option<u32>
    requires { IsSorted place_cmp index.now }
    ensures { IsPlaced index.now version tile.now result }
{
    let key = Place {
        tile: *tile,
        version,
    };
    match index.binary_search(&key) {
        Ok(_) => Some(version),
        Err(at) => {
            if at == 0 {
                return None;
            }
            let before = index[at - 1];
            if before.tile == *tile {
                Some(before.version)
            } else {
                None
            }
        }
    }
}

impl Chain {
    /// The newest version, 0 where there is none.
    pub fn newest(&self) -> u32
        ensures value { result ≡ length self.now.records }
        ensures most { result ≤ MOST_VERSIONS }
    {
        self.records.len() as u32
    }

    /// How many tile entries all records have together.
    pub fn entries(&self) -> u32
        ensures { result ≡ sum_by (λ (r : manifest.Record). length r.tiles) self.now.records }
    {
        self.index.len() as u32
    }

    /// The record of a version, or `None` where the version is 0 or above the newest.
    pub fn record_at(&self, version: u32) -> Option<&Record>
        ensures { MatchOption result ((version ≡ 0) ⊎ (length self.now.records < version))
            (λ r. (1 ≤ version) × (slice_get self.now.records (version - 1) ≡ Some r.now)) }
    {
        if version == 0 {
            return None;
        }
        self.records.as_slice().get(version as usize - 1)
    }

    /// The greatest version up to `version` that has the tile. It takes no memory and asks no disk.
    pub fn find(&self, version: u32, tile: &Tile) -> Option<u32>
        ensures found { IsFound self.now version tile.now result }
        ensures least { IfSome result (λ v. 1 ≤ v) }
        ensures most { IfSome result (λ v. v ≤ MOST_VERSIONS) }
    {
        newest_in(self.index.as_slice(), version, tile)
    }

    /// Makes room for a further record with so many tiles. Whatever it answers, the records stay.
    pub fn reserve(&mut self, tiles: u32) -> Result<(), AllocError>
        ensures records { self.new.records ≡ self.old.records }
        ensures spare { OnOk result (tiles < self.new.spare) }
    {
        self.records.reserve(1)?;
        self.index.reserve(tiles as usize)?;
        Ok(())
    }

    /// Appends the record of the next version, within the room that there is: no memory is taken.
    pub fn add(&mut self, next: Record)
        requires version { next.version ≡ length self.old.records + 1 }
        requires room { length next.tiles < self.old.spare }
        ensures records { self.new.records ≡ self.old.records ++ next ∷ [] }
        ensures publication { (P : List (List given.Source)) (x : List given.Source) → AreRecords self.old.records P
            → next.heads ≡ heads_of x → IsTouched (heads_of x) next.tiles → AreRecords self.new.records (P ++ x ∷ []) }
    {
        push_places(&mut self.index, next.version, next.tiles.as_slice());
        self.index.sort_unstable();
        self.records.push(next).unwrap();
    }
}
