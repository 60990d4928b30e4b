//! The tiles that sources touch.
use cdb_grid::{Arc, Family, Level, Tile, tile_at};
use cdb_source::{Kind, Source, SourceHead, SourceMaker};
use cdb_touch::{MOST_LOAD, TouchError, load, reached, reaches, touched};
use std::alloc::Global;
use std::process::Abort;
use std::test::Fail;

/// A source by the number of its level, its corner and its steps in degrees, each a fraction, and
/// its rows and columns.
#[derive(Clone, Copy)]
struct Given {
    kind: Kind,
    level: i32,
    corner: [(i64, i64); 2],
    steps: [(i64, i64); 2],
    rows: u32,
    cols: u32,
}

fn arc(rt: &impl Abort, fraction: (i64, i64)) -> Arc {
    Arc::of_fraction(fraction.0, fraction.1).expect(rt, "a whole number of units")
}

fn head(rt: &impl Abort, given: Given) -> SourceHead {
    let [lat, lon] = given.corner;
    let [dlat, dlon] = given.steps;
    SourceHead::new(
        given.kind,
        Level::new(given.level).expect(rt, "a level"),
        arc(rt, lat),
        arc(rt, lon),
        arc(rt, dlat),
        arc(rt, dlon),
        given.rows,
        given.cols,
    )
    .expect(rt, "a box on the globe")
}

/// A source of elevations at whole degrees.
fn elevations(level: i32, lat: i64, lon: i64, steps: (i64, i64), rows: u32, cols: u32) -> Given {
    Given {
        kind: Kind::Elevation,
        level,
        corner: [(lat, 1), (lon, 1)],
        steps: [(steps.0, 1), (steps.1, 1)],
        rows,
        cols,
    }
}

fn materials(level: i32, corner: [(i64, i64); 2], step: (i64, i64), side: u32) -> Given {
    Given {
        kind: Kind::Material,
        level,
        corner,
        steps: [step, step],
        rows: side,
        cols: side,
    }
}

/// Half a degree from post to post, at N46E007.
fn four_posts() -> Given {
    Given {
        steps: [(1, 2), (1, 2)],
        ..elevations(-9, 46, 7, (1, 1), 2, 2)
    }
}

/// The last place of the finest level in N46E007.
fn last_place() -> Given {
    Given {
        corner: [
            (403_726_925_823, 8_589_934_592),
            (68_719_476_735, 8_589_934_592),
        ],
        ..elevations(23, 46, 7, (1, 1), 1, 1)
    }
}

fn fine_square() -> Given {
    Given {
        steps: [(1, 3600), (1, 3600)],
        ..elevations(1, 47, 11, (1, 1), 3601, 3601)
    }
}

fn whole_globe(level: i32) -> Given {
    elevations(level, -90, -180, (12, 12), 16, 31)
}

#[test]
fn loads_and_touched_tiles(rt: HostRuntime) -> Result<(), Fail> {
    for (given, load_is) in [
        (elevations(-10, 46, 7, (1, 1), 1, 1), 3),
        (four_posts(), 6),
        (last_place(), 102),
        (elevations(11, 46, 7, (1, 1), 1, 2), 12_381),
        (elevations(12, 46, 7, (1, 1), 1, 2), 24_672),
        (elevations(-10, 50, 7, (1, 1), 1, 1), 0),
        (fine_square(), 159),
        // The zones of one and of two degrees meet at 50 degrees.
        (elevations(-10, 49, 8, (1, 1), 3, 1), 9),
        (elevations(-10, 49, 7, (1, 1), 3, 1), 3),
        // To the poles, whose last rows have geocells of 12 and of 6 degrees.
        (elevations(-10, 88, -180, (1, 12), 3, 31), 270),
        (elevations(-10, -90, -180, (1, 12), 2, 31), 270),
        (whole_globe(-10), 139_320),
        (whole_globe(23), 13_071_697_918_444_211_400),
        (materials(-9, [(46, 1), (7, 1)], (1, 2), 2), 2),
        // The centre of the geocell is on the box's edge, which belongs to it in the south-west alone.
        (materials(-10, [(46, 1), (7, 1)], (1, 2), 1), 0),
        (materials(-10, [(93, 2), (15, 2)], (1, 2), 1), 1),
    ] {
        let head = head(&rt, given);
        assert_eq!(rt; load(&[head]), load_is);
        match touched(rt.alloc(), &[head]) {
            Ok(tiles) => {
                assert!(rt; load_is <= MOST_LOAD);
                assert_eq!(rt; tiles.len() as u128, load_is);
                for tile in &tiles {
                    assert!(rt; reaches(&head, tile));
                }
            }
            Err(error) => {
                assert!(rt; load_is > MOST_LOAD);
                assert_eq!(rt; error, TouchError::Large { count: load_is });
            }
        }
    }
    Ok(())
}

#[test]
fn several_sources(rt: HostRuntime) -> Result<(), Fail> {
    let twice = [head(&rt, four_posts()), head(&rt, four_posts())];
    assert_eq!(rt; load(&twice), 12);
    let tiles = touched(rt.alloc(), &twice)?;
    assert_eq!(rt; tiles.len(), 6);
    for (tile, want) in tiles.as_slice().iter().zip(&[
        (Family::Elev, -9),
        (Family::Elev, -10),
        (Family::Low, -9),
        (Family::Low, -10),
        (Family::High, -9),
        (Family::High, -10),
    ]) {
        assert_eq!(rt; (tile.family, tile.level.number), *want);
    }
    let globe = head(&rt, whole_globe(23));
    assert_eq!(rt; load(&[globe, globe]), 26_143_395_836_888_422_800);
    assert_eq!(rt; load(&[]), 0);
    Ok(())
}

/// A source of one post, 500 metres.
fn one_post(alloc: Global, head: SourceHead) -> Result<Source, Fail> {
    if head.rows != 1 || head.cols != 1 {
        return Err("one post".into());
    }
    let mut maker = SourceMaker::new(alloc, head)?;
    maker.push_row(&[500], -32768)?;
    Ok(maker.finish())
}

#[test]
fn reached_by_one_of_several(rt: HostRuntime) -> Result<(), Fail> {
    let west = head(&rt, elevations(-10, 46, 7, (1, 1), 1, 1));
    let east = head(&rt, elevations(-10, 46, 9, (1, 1), 1, 1));
    let sources = [one_post(rt.alloc(), west)?, one_post(rt.alloc(), east)?];
    let level = Level::new(-10).ok_or("level")?;
    for (lon, family, is_reached) in [
        (7, Family::Elev, true),
        (8, Family::Elev, false),
        (9, Family::High, true),
        (9, Family::Mat, false),
    ] {
        let tile = tile_at(family, level, arc(&rt, (46, 1)), arc(&rt, (lon, 1))).ok_or("tile")?;
        assert_eq!(rt; reached(&sources, &tile), is_reached);
        assert_eq!(rt; reached(&[], &tile), false);
    }
    Ok(())
}
