//! Sessions, and the tiles that they ask for.
ghost use Rattle.std.specs.Prelude.{◌≤◌};
ghost use Rattle.cdb_model.specs.declared.limits.TheConstants.{MOST_VERSIONS};

use crate::stores::{HEAD, first_tile, put};
use cdb_chain::Chain;
use cdb_files::Disk;
use cdb_grid::{Family, Tile};
use cdb_memfiles::{Fuse, MemDisk};
use cdb_names::{record_path, write_path};
use cdb_sessions::{Reply, SessionError, Sessions, TileError, Unknown, laws};
use cdb_tiff_write::tile_size;
use std::alloc::Global;
use std::test::Fail;

/// The first tile of elevations of N46E007 at a level.
fn tile(level: i8) -> Result<Tile, Fail> {
    let Some(found) = first_tile(Family::Elev, i32::from(level)) else {
        return Err("tile".into());
    };
    Ok(found)
}

/// Puts a version: its record, and the files of these levels, the finest first. All bytes of its
/// files are the same.
fn put_version(
    alloc: Global,
    disk: &mut MemDisk,
    version: u32,
    levels: &[i8],
    fill: u8,
) -> Result<(), Fail>
    requires from_one { 1 ≤ version }
    requires to_last { version ≤ MOST_VERSIONS }
{
    let count = levels.len();
    if count > 16 {
        return Err("levels".into());
    }
    let mut bytes = Vec::new(alloc);
    bytes.extend_from_slice(b"CDBREC1\n")?;
    bytes.extend_from_slice(&version.to_be_bytes())?;
    bytes.extend_from_slice(&[0, 0, 0, 1, 0, 0, 0, count as u8])?;
    bytes.extend_from_slice(&HEAD)?;
    for level in levels {
        bytes.extend_from_slice(&[1, level.cast_unsigned(), 46, 0, 0, 7, 0, 0])?;
        bytes.extend_from_slice(&[0, 0, 0, 0, 0, 0, 0, 0])?;
        let tile = tile(*level)?;
        let file = vec![in alloc; fill; tile_size(&tile)]?;
        put(disk, &write_path(version, &tile), file.as_slice())?;
    }
    put(disk, &record_path(version), bytes.as_slice())
}

/// A store's records.
fn open_chain(alloc: Global, disk: &mut MemDisk, newest: u32) -> Result<Chain, Fail>
    requires { newest ≤ MOST_VERSIONS }
{
    Ok(Chain::open(alloc, disk, newest).map_err(|_| "open")?)
}

/// Opens a session at a version.
fn open(sessions: &mut Sessions, version: u32) -> Result<u32, SessionError> {
    sessions.open(version)
}

/// Closes a session.
fn close(sessions: &mut Sessions, id: u32) -> Result<(), Unknown> {
    sessions.close(id)
}

/// The version of a session.
fn version_of(sessions: &Sessions, id: u32) -> Option<u32> {
    sessions.version_of(id)
}

/// Asks a session for a tile.
fn ask<D: Disk>(
    sessions: &mut Sessions,
    id: u32,
    tile: &Tile,
    chain: &Chain,
    disk: &mut D,
) -> Result<Reply, TileError> {
    sessions.tile(id, tile, chain, disk)
}

/// The levels of the tiles of elevations that are asked for, one after the other, and how often
/// files were read up to each answer: a tile, the eight finer ones, and the tile again; then some of
/// the seven that were asked for last, and others.
static REQUESTS: [(i8, u64); 15] = [
    (-10, 1),
    (-9, 2),
    (-8, 3),
    (-7, 4),
    (-6, 5),
    (-5, 6),
    (-4, 7),
    (-3, 8),
    (-2, 9),
    (-10, 10),
    (-10, 10),
    (-7, 10),
    (-8, 11),
    (-7, 11),
    (-6, 12),
];

#[test]
fn the_seven_tiles_that_were_asked_for_last_are_not_read(rt: HostRuntime) -> Result<(), Fail> {
    let alloc = rt.alloc();
    let mut disk = MemDisk::new(alloc, Vec::new(alloc));
    put_version(
        alloc,
        &mut disk,
        1,
        &[-2, -3, -4, -5, -6, -7, -8, -9, -10],
        7,
    )?;
    let chain = open_chain(alloc, &mut disk, 1)?;
    let mut sessions = Sessions::new(alloc)?;
    sessions.kept_are_few();
    assert_eq!(rt; open(&mut sessions, 1), Ok(1));
    assert_eq!(rt; sessions.reply().len(), 0);
    let before = disk.reads();
    for (level, reads) in REQUESTS.iter() {
        let Ok(Reply::Bytes(count)) = ask(&mut sessions, 1, &tile(*level)?, &chain, &mut disk)
        else {
            return Err("no file".into());
        };
        assert_eq!(rt; sessions.reply().len(), count as usize, "level {}", *level);
        assert_eq!(rt;
            (
                sessions.reply().first().copied(),
                sessions.reply().last().copied()
            ),
            (Some(7), Some(7))
        );
        assert_eq!(rt;
            disk.reads().wrapping_sub(before),
            *reads,
            "level {}",
            *level
        );
    }
    laws::requests_stay_current();
    Ok(())
}

/// The session, the level, and the answer: how many bytes, and what they are.
static ANSWERS: [(u32, i8, Result<Reply, TileError>, Option<u8>); 8] = [
    (1, -10, Ok(Reply::Bytes(188)), Some(7)),
    (2, -10, Ok(Reply::Bytes(188)), Some(8)),
    (1, -10, Ok(Reply::Bytes(188)), Some(7)),
    (2, -9, Ok(Reply::Bytes(194)), Some(7)),
    (2, -8, Ok(Reply::Missing), None),
    (3, -10, Err(TileError::Unknown), None),
    (2, -9, Ok(Reply::Bytes(194)), Some(7)),
    (0, -9, Err(TileError::Unknown), None),
];

#[test]
fn each_session_has_its_version(rt: HostRuntime) -> Result<(), Fail> {
    let alloc = rt.alloc();
    let mut disk = MemDisk::new(alloc, Vec::new(alloc));
    put_version(alloc, &mut disk, 1, &[-9, -10], 7)?;
    put_version(alloc, &mut disk, 2, &[-10], 8)?;
    let chain = open_chain(alloc, &mut disk, 2)?;
    let mut sessions = Sessions::new(alloc)?;
    assert_eq!(rt;
        (open(&mut sessions, 1), open(&mut sessions, 2)),
        (Ok(1), Ok(2))
    );
    assert_eq!(rt;
        (
            version_of(&sessions, 1),
            version_of(&sessions, 2),
            version_of(&sessions, 3)
        ),
        (Some(1), Some(2), None)
    );
    for (id, level, answer, first) in ANSWERS.iter() {
        assert_eq!(rt;
            ask(&mut sessions, *id, &tile(*level)?, &chain, &mut disk),
            *answer,
            "session {}, level {}",
            *id,
            *level
        );
        assert_eq!(rt;
            sessions.reply().first().copied(),
            *first,
            "session {}, level {}",
            *id,
            *level
        );
    }
    Ok(())
}

/// The refusal of a file of another size.
fn damage(expected: u64, found: Option<u64>) -> Result<Reply, TileError> {
    Err(TileError::Damaged { expected, found })
}

/// A store of one version with the elevations of the levels -8 to -10.
fn one_version(alloc: Global) -> Result<MemDisk, Fail> {
    let mut disk = MemDisk::new(alloc, Vec::new(alloc));
    put_version(alloc, &mut disk, 1, &[-8, -9, -10], 7)?;
    Ok(disk)
}

/// One session, at version 1.
fn one_session(alloc: Global) -> Result<Sessions, Fail> {
    let mut sessions = Sessions::new(alloc)?;
    open(&mut sessions, 1).map_err(|_| "open")?;
    Ok(sessions)
}

/// The answers for a file that is shorter than its form, and for one that isn't there.
fn changed_files(alloc: Global) -> Result<[Result<Reply, TileError>; 2], Fail> {
    let mut disk = one_version(alloc)?;
    let chain = open_chain(alloc, &mut disk, 1)?;
    let mut sessions = one_session(alloc)?;
    let (short, absent) = (tile(-9)?, tile(-8)?);
    put(&mut disk, &write_path(1, &short), b"short")?;
    disk.remove(&write_path(1, &absent))?;
    let first = ask(&mut sessions, 1, &short, &chain, &mut disk);
    Ok([first, ask(&mut sessions, 1, &absent, &chain, &mut disk)])
}

/// The answers for a tile that was read, one that wasn't, and the first again, where each call of the
/// disk fails since the first was read, and how many bytes the last reply has.
fn failing_calls(alloc: Global) -> Result<([Result<Reply, TileError>; 3], usize), Fail> {
    let mut disk = one_version(alloc)?;
    let chain = open_chain(alloc, &mut disk, 1)?;
    let mut sessions = one_session(alloc)?;
    let (kept, other) = (tile(-10)?, tile(-9)?);
    let _ = ask(&mut sessions, 1, &kept, &chain, &mut disk);
    let mut fuse = Fuse::new(disk, 0);
    let first = ask(&mut sessions, 1, &kept, &chain, &mut fuse);
    let second = ask(&mut sessions, 1, &other, &chain, &mut fuse);
    let third = ask(&mut sessions, 1, &kept, &chain, &mut fuse);
    Ok(([first, second, third], sessions.reply().len()))
}

#[test]
fn files_that_others_changed_and_calls_that_fail(rt: HostRuntime) -> Result<(), Fail> {
    let [short, absent] = changed_files(rt.alloc())?;
    assert_eq!(rt; short, damage(194, Some(5)));
    assert_eq!(rt; absent, damage(218, None));
    let ([kept, other, again], count) = failing_calls(rt.alloc())?;
    assert_eq!(rt; kept, Ok(Reply::Bytes(188)));
    assert_eq!(rt; other, Err(TileError::Fault));
    assert_eq!(rt; again, Ok(Reply::Bytes(188)));
    assert_eq!(rt; count, 188);
    Ok(())
}

#[test]
fn sixty_four_sessions(rt: HostRuntime) -> Result<(), Fail> {
    let mut sessions = Sessions::new(rt.alloc())?;
    for count in 0..64u32 {
        assert_eq!(rt; open(&mut sessions, count), Ok(count + 1));
    }
    assert_eq!(rt; open(&mut sessions, 9), Err(SessionError::Many));
    assert_eq!(rt;
        (
            close(&mut sessions, 0),
            close(&mut sessions, 2),
            close(&mut sessions, 2)
        ),
        (Err(Unknown), Ok(()), Err(Unknown))
    );
    // its number isn't used again
    assert_eq!(rt; open(&mut sessions, 9), Ok(65));
    assert_eq!(rt; open(&mut sessions, 9), Err(SessionError::Many));
    assert_eq!(rt;
        (
            version_of(&sessions, 2),
            version_of(&sessions, 64),
            version_of(&sessions, 65)
        ),
        (None, Some(63), Some(9))
    );
    Ok(())
}
