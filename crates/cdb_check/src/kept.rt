//! Tiles that were made, kept for the coarser tiles over them.
ghost use Rattle.std.specs.Prelude.{◌≡◌, List, IsTrue, IfOk, OnOk};
ghost use Rattle.cdb_grid.specs.declared.tile.Tile as grid;
ghost use Rattle.cdb_source.specs.declared.source.Source as given;
ghost use Rattle.cdb_cut.specs.OneTile.{IsFrameOf};

use crate::outcome::CheckError;
use cdb_grid::Tile;
use std::alloc::Global;

/// The finest level whose tiles are kept.
const FINEST: i8 = 0;

/// The most tiles that are kept.
const MOST: usize = 64;

/// A tile with its values.
#[derive(Drop)]
pub struct Kept {
    pub(crate) tile: Tile,
    /// The values, the south row first.
    pub(crate) frame: Vec<i16>,
}

/// Whether two tiles are the same.
fn is_same(a: &Tile, b: &Tile) -> bool
    ensures { IsTrue result → a.now ≡ b.now }
{
    a == b
}

/// The same numbers in memory of their own.
fn copy_of(alloc: Global, values: &[i16]) -> Result<Vec<i16>, CheckError>
    ensures { IfOk result (λ copy. copy.items ≡ values.now) }
{
    let mut copy = Vec::new(alloc);
    match copy.extend_from_slice(values) {
        Ok(()) => Ok(copy),
        Err(_) => Err(CheckError::Memory),
    }
}

impl Kept {
    ghost use Rattle.cdb_check.specs.Kept.{AreKeptFrames};

    /// Copies the values of a tile where it is kept, and says whether it is.
    pub(crate) fn copy(entries: &[Kept], tile: &Tile, frame: &mut [i16]) -> bool
        ensures { IsTrue result → (ss : List given.Source) → AreKeptFrames ss entries.now
            → IsFrameOf ss tile.now frame.new }
    {
        for entry in entries {
            let values = entry.frame.as_slice();
            if is_same(&entry.tile, tile) {
                if values.len() == frame.len() {
                    frame.copy_from_slice(values);
                    return true;
                }
            }
        }
        false
    }

    /// Lets all go where there are as many as may be.
    #[tactic(auto, using(crate::proofs::KeptTiles::kept_none))]
    fn make_room(entries: &mut Vec<Kept>)
        ensures { (ss : List given.Source) → AreKeptFrames ss entries.old.items → AreKeptFrames ss entries.new.items }
    {
        if entries.len() >= MOST {
            entries.clear();
        }
    }

    #[tactic(auto, using(crate::proofs::KeptTiles::kept_more))]
    fn add(entries: &mut Vec<Kept>, entry: Kept) -> Result<(), CheckError>
        ensures { (ss : List given.Source) → AreKeptFrames ss entries.old.items
            → IsFrameOf ss entry.tile entry.frame.items → OnOk result (AreKeptFrames ss entries.new.items) }
    {
        match entries.push(entry) {
            Ok(()) => Ok(()),
            Err(_) => Err(CheckError::Memory),
        }
    }

    /// Keeps a tile where its level isn't too fine. Where there is no more room, the others go first.
    pub(crate) fn keep(
        alloc: Global,
        entries: &mut Vec<Kept>,
        tile: &Tile,
        values: &[i16],
    ) -> Result<(), CheckError>
        ensures { (ss : List given.Source) → AreKeptFrames ss entries.old.items → IsFrameOf ss tile.now values.now
            → OnOk result (AreKeptFrames ss entries.new.items) }
    {
        if tile.level.number > FINEST {
            return Ok(());
        }
        let frame = match copy_of(alloc, values) {
            Ok(frame) => frame,
            Err(error) => return Err(error),
        };
        Kept::make_room(entries);
        Kept::add(entries, Kept { tile: *tile, frame })
    }
}
