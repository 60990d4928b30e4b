//! The versions of a store, and look-ups in them.
ghost use Rattle.std.specs.Prelude.{◌≤◌};
ghost use Rattle.cdb_model.specs.declared.limits.TheConstants.{MOST_VERSIONS};

use crate::stores::{HEAD, first_tile, put};
use cdb_chain::{Chain, OpenError, laws};
use cdb_grid::{Family, Tile};
use cdb_manifest::decode;
use cdb_memfiles::MemDisk;
use cdb_names::record_path;
use std::alloc::Global;
use std::test::Fail;

/// The first bytes of a record and its three numbers, then so many heads.
fn front(alloc: Global, version: u32, heads: u32, tiles: u32) -> Result<Vec<u8>, Fail> {
    let mut bytes = Vec::new(alloc);
    bytes.extend_from_slice(b"CDBREC1\n")?;
    bytes.extend_from_slice(&version.to_be_bytes())?;
    bytes.extend_from_slice(&heads.to_be_bytes())?;
    bytes.extend_from_slice(&tiles.to_be_bytes())?;
    for _ in 0..heads {
        bytes.extend_from_slice(&HEAD)?;
    }
    Ok(bytes)
}

/// Puts a tile at N46E007 behind the others: its family's number, level, U and R.
fn push_tile(bytes: &mut Vec<u8>, family: u8, level: i8, up: u32, right: u32) -> Result<(), Fail> {
    bytes.extend_from_slice(&[family, level.cast_unsigned(), 46, 0, 0, 7, 0, 0])?;
    bytes.extend_from_slice(&up.to_be_bytes())?;
    bytes.extend_from_slice(&right.to_be_bytes())?;
    Ok(())
}

/// The record of a version with one source and these tiles, by family and level, each the first of
/// its geocell.
fn record(alloc: Global, version: u32, tiles: &[(u8, i8)]) -> Result<Vec<u8>, Fail> {
    let Ok(count) = u32::try_from(tiles.len()) else {
        return Err("tiles".into());
    };
    let mut bytes = front(alloc, version, 1, count)?;
    for (family, level) in tiles {
        push_tile(&mut bytes, *family, *level, 0, 0)?;
    }
    Ok(bytes)
}

/// The record of a version with so many sources and so many tiles of elevations at level 7, of the
/// 16,384 that a geocell has, the first ones in the stated order.
fn full(alloc: Global, version: u32, heads: u32, tiles: u32) -> Result<Vec<u8>, Fail> {
    let mut bytes = front(alloc, version, heads, tiles)?;
    for number in 0..tiles {
        push_tile(&mut bytes, 1, 7, number / 128, number % 128)?;
    }
    Ok(bytes)
}

/// Writes the record of a version, whatever its bytes.
fn put_record(disk: &mut MemDisk, version: u32, bytes: &[u8]) -> Result<(), Fail>
    requires from_one { 1 ≤ version }
    requires to_last { version ≤ MOST_VERSIONS }
{
    put(disk, &record_path(version), bytes)
}

/// Three versions: the elevations, minima and maxima of level -10 and the elevations of level -9;
/// then the elevations of level -10; then those of level -9, and materials of level -10.
fn three(alloc: Global) -> Result<MemDisk, Fail> {
    let mut disk = MemDisk::new(alloc, Vec::new(alloc));
    put_record(
        &mut disk,
        1,
        record(alloc, 1, &[(1, -9), (1, -10), (2, -10), (3, -10)])?.as_slice(),
    )?;
    put_record(&mut disk, 2, record(alloc, 2, &[(1, -10)])?.as_slice())?;
    put_record(
        &mut disk,
        3,
        record(alloc, 3, &[(1, -9), (4, -10)])?.as_slice(),
    )?;
    Ok(disk)
}

/// The records of a store up to a version.
fn open(alloc: Global, disk: &mut MemDisk, newest: u32) -> Result<Chain, OpenError>
    requires { newest ≤ MOST_VERSIONS }
{
    Chain::open(alloc, disk, newest)
}

/// The version that a look-up finds.
fn find(chain: &Chain, version: u32, tile: &Tile) -> Option<u32> {
    chain.find(version, tile)
}

/// The version up to which is looked, the tile's family and level, and the version that has it.
static LOOK_UPS: [(u32, Family, i32, Option<u32>); 14] = [
    (0, Family::Elev, -10, None),
    (1, Family::Elev, -10, Some(1)),
    (2, Family::Elev, -10, Some(2)),
    (3, Family::Elev, -10, Some(2)),
    (4_097, Family::Elev, -10, Some(2)),
    (1, Family::Elev, -9, Some(1)),
    (2, Family::Elev, -9, Some(1)),
    (3, Family::Elev, -9, Some(3)),
    (3, Family::Low, -10, Some(1)),
    (3, Family::High, -10, Some(1)),
    (3, Family::Low, -9, None),
    (2, Family::Mat, -10, None),
    (3, Family::Mat, -10, Some(3)),
    (3, Family::Elev, -8, None),
];

#[test]
fn look_ups_between_three_versions(rt: HostRuntime) -> Result<(), Fail> {
    let mut disk = three(rt.alloc())?;
    let chain = open(rt.alloc(), &mut disk, 3).map_err(|_| "open")?;
    assert_eq!(rt; (chain.newest(), chain.entries()), (3, 7));
    for (version, family, level, want) in LOOK_UPS.iter() {
        let Some(tile) = first_tile(*family, *level) else {
            return Err("tile".into());
        };
        assert_eq!(rt;
            find(&chain, *version, &tile),
            *want,
            "version {}, level {}",
            *version,
            *level
        );
    }
    assert_eq!(rt;
        (chain.record_at(0).is_some(), chain.record_at(4).is_some()),
        (false, false)
    );
    for version in 1..4u32 {
        assert_eq!(rt;
            chain.record_at(version).map(|item| item.version),
            Some(version)
        );
    }
    // fewer versions of the same store
    let older = open(rt.alloc(), &mut disk, 2).map_err(|_| "open")?;
    assert_eq!(rt; (older.newest(), older.entries()), (2, 5));
    let none = open(rt.alloc(), &mut disk, 0).map_err(|_| "open")?;
    assert_eq!(rt; (none.newest(), none.entries()), (0, 0));
    laws::look_ups_are_one();
    laws::look_ups_meet_sources();
    laws::look_ups_name_files();
    Ok(())
}

/// What opening the three versions and a fourth answers, one of them with other bytes.
fn open_answer(alloc: Global, version: u32, bytes: &[u8]) -> Result<Option<OpenError>, Fail>
    requires from_one { 1 ≤ version }
    requires to_last { version ≤ MOST_VERSIONS }
{
    let mut disk = three(alloc)?;
    put_record(&mut disk, version, bytes)?;
    Ok(open(alloc, &mut disk, 4).err())
}

/// The refusal of a version's record at a place.
fn bad(version: u32, place: u32) -> Option<OpenError> {
    Some(OpenError::NotAStore { version, place })
}

/// A record whose one tile isn't whole, as the fourth.
fn off_the_form(alloc: Global) -> Result<Option<OpenError>, Fail> {
    let bytes = record(alloc, 4, &[(1, -10)])?;
    if bytes.len() < 79 {
        return Err("record".into());
    }
    open_answer(alloc, 4, bytes.as_slice().split_at(79).0)
}

/// A record as long as one can be, as the fourth.
fn longest(alloc: Global) -> Result<Option<OpenError>, Fail> {
    let bytes = full(alloc, 4, 64, 16_384)?;
    if bytes.len() != 264_980 {
        return Err("record".into());
    }
    open_answer(alloc, 4, bytes.as_slice())
}

/// Longer bytes than a record can have, as the fourth.
fn too_long(alloc: Global) -> Result<Option<OpenError>, Fail> {
    let bytes = vec![in alloc; 0u8; 264_981]?;
    open_answer(alloc, 4, bytes.as_slice())
}

/// The record of a version with one tile, put as that of another version.
fn other(alloc: Global, written: u32, version: u32) -> Result<Option<OpenError>, Fail>
    requires from_one { 1 ≤ version }
    requires to_last { version ≤ MOST_VERSIONS }
{
    let bytes = record(alloc, written, &[(4, -10)])?;
    open_answer(alloc, version, bytes.as_slice())
}

/// Opening where the first call of the disk fails.
fn failing(alloc: Global) -> Result<Option<OpenError>, Fail> {
    let mut fails = Vec::new(alloc);
    fails.push(1)?;
    let mut disk = MemDisk::new(alloc, fails);
    Ok(open(alloc, &mut disk, 1).err())
}

#[test]
fn each_place_of_what_is_no_store(rt: HostRuntime) -> Result<(), Fail> {
    let alloc = rt.alloc();
    assert_eq!(rt; other(alloc, 4, 4)?, None);
    assert_eq!(rt; longest(alloc)?, None);
    assert_eq!(rt; too_long(alloc)?, bad(4, 264_980));
    assert_eq!(rt; off_the_form(alloc)?, bad(4, 64));
    assert_eq!(rt; open_answer(alloc, 4, b"")?, bad(4, 0));
    assert_eq!(rt; other(alloc, 5, 4)?, bad(4, 8));
    // the fourth is absent
    assert_eq!(rt; other(alloc, 3, 3)?, bad(4, 0));
    // the first bad one
    assert_eq!(rt; other(alloc, 3, 2)?, bad(2, 8));
    assert_eq!(rt; open_answer(alloc, 1, b"CDBREC2\n")?, bad(1, 0));
    assert_eq!(rt; failing(alloc)?, Some(OpenError::Fault));
    Ok(())
}

/// Adds the record that these bytes spell, where there is room for one with so many tiles.
fn add(alloc: Global, chain: &mut Chain, room: u32, bytes: &[u8]) -> Result<(), Fail> {
    let item = decode(alloc, bytes)?;
    if item.version != chain.newest() + 1 || item.tiles.as_slice().len() > room as usize {
        return Err("record".into());
    }
    chain.reserve(room)?;
    chain.add(item);
    Ok(())
}

#[test]
fn records_are_added_where_room_was_made(rt: HostRuntime) -> Result<(), Fail> {
    let alloc = rt.alloc();
    let mut disk = three(alloc)?;
    let mut chain = open(alloc, &mut disk, 3).map_err(|_| "open")?;
    add(
        alloc,
        &mut chain,
        16_384,
        full(alloc, 4, 1, 16_383)?.as_slice(),
    )?;
    assert_eq!(rt; (chain.newest(), chain.entries()), (4, 16_390));
    add(
        alloc,
        &mut chain,
        1,
        record(alloc, 5, &[(1, -10)])?.as_slice(),
    )?;
    assert_eq!(rt; (chain.newest(), chain.entries()), (5, 16_391));
    let Some(elevations) = first_tile(Family::Elev, -10) else {
        return Err("tile".into());
    };
    assert_eq!(rt;
        (find(&chain, 4, &elevations), find(&chain, 5, &elevations)),
        (Some(2), Some(5))
    );
    let Some(fine) = first_tile(Family::Elev, 7) else {
        return Err("tile".into());
    };
    assert_eq!(rt;
        (find(&chain, 3, &fine), find(&chain, 4, &fine)),
        (None, Some(4))
    );
    for (version, family, level, want) in LOOK_UPS.iter() {
        let Some(tile) = first_tile(*family, *level) else {
            return Err("tile".into());
        };
        if *version <= 3 {
            assert_eq!(rt;
                find(&chain, *version, &tile),
                *want,
                "version {}, level {}",
                *version,
                *level
            );
        }
    }
    Ok(())
}
