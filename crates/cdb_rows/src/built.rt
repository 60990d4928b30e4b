//! The tiles of a store beside those that are built from its sources alone.

use crate::script::{new_disk, run};
use crate::store::{contents, path};
use cdb_files::{Disk, Path};
use cdb_grid::{Family, Tile, side};
use cdb_memfiles::MemDisk;
use cdb_names::{read_path, source_path};
use cdb_scratch::build;
use cdb_source::{Source, decode};
use cdb_tiff_write::{head, posts_of};
use std::alloc::Global;
use std::test::Fail;

/// Puts the sources of a version behind these, as its source files spell them.
fn push_sources(
    alloc: Global,
    disk: &mut MemDisk,
    version: u32,
    sources: &mut Vec<Source>,
) -> Result<(), Fail> {
    if version == 0 || version > 4096 {
        return Err("no version".into());
    }
    for number in 1..65 {
        let Some(bytes) = contents(alloc, disk, &source_path(version, number))? else {
            break;
        };
        sources.push(decode(alloc, bytes.as_slice()).map_err(|_| "source file")?)?;
    }
    Ok(())
}

/// Whether the bytes are those of the tile's file with the values that all these sources give.
fn is_built(alloc: Global, bytes: &[u8], tile: &Tile, sources: &[Source]) -> Result<bool, Fail> {
    let side = side(tile.level);
    let bits = match tile.family {
        Family::Elev | Family::Low | Family::High => 16,
        Family::Mat => 8,
    };
    let count = side as usize * side as usize;
    if bytes.len() != 186 + count * (bits as usize / 8) {
        return Ok(false);
    }
    let mut found = vec![in alloc; 0i16; count]?;
    posts_of(bytes, side, bits, found.as_mut_slice());
    let mut want = vec![in alloc; 0i16; count]?;
    let reached = build(sources, tile, want.as_mut_slice());
    let (first, _) = bytes.split_at(186);
    Ok(reached && first == &head(side, bits)[..] && found.as_slice() == want.as_slice())
}

/// How many tiles are under a folder, if each has the values that these sources give. The files there are
/// removed.
fn count_built(
    alloc: Global,
    disk: &mut MemDisk,
    folder: &Path,
    sources: &[Source],
) -> Result<Option<usize>, Fail> {
    let mut tiles = 0usize;
    for _ in 0..1000 {
        let Some(path) = disk.first_under(folder)? else {
            return Ok(Some(tiles));
        };
        if let Ok((_, tile)) = read_path(path.as_str().as_bytes()) {
            let bytes = contents(alloc, disk, &path)?.ok_or("the file of a tile")?;
            if !is_built(alloc, bytes.as_slice(), &tile, sources)? {
                return Ok(None);
            }
            tiles = tiles.saturating_add(1);
        }
        disk.remove(&path)?;
    }
    Err("too many files".into())
}

/// Versions and their folders.
static FOLDERS: [(u32, &str); 2] = [(1, "V00000001"), (2, "V00000002")];

/// Publications, and how many tiles each of the two versions has.
static BUILT: [(&[u8], [usize; 2]); 6] = [
    // One tile of each family at two levels, and a coarser source after it.
    (
        b"inline elev -9 46 7 1/2 1/2 2 2 30 40 10 20\npublish\nstep all\ninline elev -10 46 7 1 1 1 1 99\npublish\nstep all\n",
        [6, 3],
    ),
    // A box that reaches into four geocells, and a finer one in one of them.
    (
        b"inline elev -7 46 7 1/2 1/2 3 3 1 2 3 -4 -5 -6 7 8 -32768\npublish\nstep all\ninline elev -6 93/2 29/4 1/8 1/8 2 2 500 -32768 -500 0\npublish\nstep all\n",
        [48, 15],
    ),
    // Materials.
    (
        b"inline mat -9 46 7 1/2 1/2 2 2 3 5 5 3\npublish\nstep all\ninline mat -9 46 7 1/2 1/2 2 2 0 0 0 7\ninline mat -10 46 7 1 1 1 1 9\npublish\nstep all\n",
        [2, 2],
    ),
    // No tile at all, since from 50 degrees north on geocells are two degrees wide; and then one.
    (
        b"inline elev -10 50 7 1 1 1 1 5\npublish\nstep all\ninline mat -10 50 8 1 2 1 1 5\npublish\nstep all\n",
        [0, 1],
    ),
    // Sources of three levels, with and without values, one over the other.
    (
        b"inline elev -10 46 7 1/2 1/2 2 2 1 2 3 4\ninline elev -8 185/4 29/4 1/4 1/4 2 2 -32768 700 -50 9\ninline elev -9 46 7 1/2 1/2 2 2 30 -32768 10 20\ninline mat -10 46 7 1/2 1/2 2 2 0 5 6 7\ninline mat -8 185/4 7 1/4 1/4 2 2 8 9 9 0\ninline mat -8 93/2 29/4 1/4 1/4 2 2 11 11 12 0\npublish\nstep all\n",
        [12, 0],
    ),
    // One post of the finest level, and a coarser one around it.
    (
        b"inline elev 23 403726925823/8589934592 68719476735/8589934592 1 1 1 1 7\npublish\nstep all\ninline elev -9 93/2 15/2 1/2 1/2 1 1 8\npublish\nstep all\n",
        [102, 6],
    ),
];

#[test]
fn tiles_have_the_values_of_all_sources(rt: HostRuntime) -> Result<(), Fail> {
    for (script, tiles) in BUILT.iter() {
        let mut disk = new_disk(rt.alloc(), 0)?;
        run(rt.alloc(), &mut disk, script)?;
        let mut sources = Vec::new(rt.alloc());
        for ((version, folder), tiles) in FOLDERS.iter().zip(tiles.iter()) {
            push_sources(rt.alloc(), &mut disk, *version, &mut sources)?;
            let built = count_built(rt.alloc(), &mut disk, &path(folder)?, sources.as_slice())?;
            assert_eq!(rt; built, Some(*tiles));
        }
    }
    Ok(())
}
