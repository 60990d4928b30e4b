//! What a source has at a place.
ghost use Rattle.std.specs.Prelude.{◌≡◌, ◌≤◌, length};

use cdb_cut::{copy_part, sample};
use cdb_grid::{Arc, Level, Spot};
use cdb_source::{Kind, Source, SourceHead, SourceMaker};
use std::alloc::Global;
use std::test::Fail;

const DEGREE: i64 = 34789235097600;

fn arc(units: i64) -> Option<Arc> {
    if units < -360 * DEGREE || units > 360 * DEGREE {
        return None;
    }
    Some(Arc { units })
}

/// A source of two columns whose steps are equal. The rows come north first.
pub(crate) fn source_at(
    alloc: Global,
    kind: Kind,
    lat: Arc,
    lon: Arc,
    step: Arc,
    rows: &[[i32; 2]],
) -> Result<Source, Fail> {
    let level = Level::new(-9).ok_or("level")?;
    let count = u32::try_from(rows.len()).ok().ok_or("rows")?;
    let head = SourceHead::new(kind, level, lat, lon, step, step, count, 2).ok_or("head")?;
    let mut maker = SourceMaker::new(alloc, head)?;
    for row in rows {
        maker.push_row(row, -32768)?;
    }
    Ok(maker.finish())
}

/// The same at N46E007.
fn source(alloc: Global, kind: Kind, step: i64, rows: &[[i32; 2]]) -> Result<Source, Fail> {
    let lat = arc(46 * DEGREE).ok_or("lat")?;
    let lon = arc(7 * DEGREE).ok_or("lon")?;
    let step = arc(step).ok_or("step")?;
    source_at(alloc, kind, lat, lon, step, rows)
}

/// What a source has so many units north and east of N46E007.
fn value_at(source: &Source, up: i64, right: i64) -> Option<i16> {
    let lat = arc((46 * DEGREE).checked_add(up)?)?;
    let lon = arc((7 * DEGREE).checked_add(right)?)?;
    sample(source, lat, lon)
}

/// No value.
const NONE: i32 = -32768;

/// A step, the north and the south row, units north and east of the corner, and the elevation.
static ELEVATIONS: [(i64, [[i32; 2]; 2], i64, i64, Option<i16>); 28] = [
    // the posts themselves
    (4, [[20, 30], [0, 10]], 0, 0, Some(0)),
    (4, [[20, 30], [0, 10]], 0, 4, Some(10)),
    (4, [[20, 30], [0, 10]], 4, 0, Some(20)),
    (4, [[20, 30], [0, 10]], 4, 4, Some(30)),
    // a quarter of the way north, and a quarter of the way east: 5 and 2.5
    (4, [[20, 30], [0, 10]], 1, 0, Some(5)),
    (4, [[20, 30], [0, 10]], 0, 1, Some(3)),
    // weights 9, 3, 3 and 1: 120 / 16 is 7.5
    (4, [[20, 30], [0, 10]], 1, 1, Some(8)),
    // halves, and quarters below zero
    (2, [[9, 9], [0, 1]], 0, 1, Some(1)),
    (2, [[9, 9], [-1, 0]], 0, 1, Some(0)),
    (2, [[9, 9], [-2, -1]], 0, 1, Some(-1)),
    (2, [[9, 9], [-3, -2]], 0, 1, Some(-2)),
    (4, [[9, 9], [-3, 0]], 0, 3, Some(-1)),
    (4, [[9, 9], [-3, 0]], 0, 1, Some(-2)),
    // outside the box by one unit, on each side
    (4, [[20, 30], [0, 10]], 5, 0, None),
    (4, [[20, 30], [0, 10]], -1, 0, None),
    (4, [[20, 30], [0, 10]], 0, 5, None),
    (4, [[20, 30], [0, 10]], 0, -1, None),
    // a post of weight zero isn't looked at
    (4, [[NONE, 30], [0, 10]], 0, 1, Some(3)),
    (4, [[NONE, 30], [0, 10]], 2, 4, Some(20)),
    (4, [[NONE, 30], [0, 10]], 2, 0, None),
    (4, [[NONE, 30], [0, 10]], 1, 1, None),
    (4, [[20, 30], [NONE, 10]], 0, 0, None),
    // steps of one unit and of 12 degrees
    (1, [[20, 30], [0, 10]], 1, 1, Some(30)),
    (
        12 * DEGREE,
        [[32767, 32767], [32767, 32767]],
        6 * DEGREE + 1,
        1,
        Some(32767),
    ),
    (
        12 * DEGREE,
        [[-32767, -32767], [-32767, -32767]],
        6 * DEGREE + 1,
        1,
        Some(-32767),
    ),
    (
        12 * DEGREE,
        [[32767, -32767], [-32767, 32767]],
        6 * DEGREE,
        6 * DEGREE,
        Some(0),
    ),
    (12 * DEGREE, [[5, 5], [0, 1]], 0, 6 * DEGREE - 1, Some(0)),
    (12 * DEGREE, [[5, 5], [0, 1]], 0, 6 * DEGREE, Some(1)),
];

#[test]
fn elevations_between_posts(rt: HostRuntime) -> Result<(), Fail> {
    for (step, rows, up, right, value) in ELEVATIONS.iter() {
        let source = source(rt.alloc(), Kind::Elevation, *step, rows)?;
        assert_eq!(rt;
            value_at(&source, *up, *right),
            *value,
            "{} north, {} east",
            *up,
            *right
        );
    }
    Ok(())
}

#[test]
fn posts_of_a_coarser_level(rt: HostRuntime) -> Result<(), Fail> {
    let half = 17394617548800;
    // one row of two posts a degree apart, at every half degree
    let flat = source(rt.alloc(), Kind::Elevation, DEGREE, &[[0, 1]])?;
    let below = source(rt.alloc(), Kind::Elevation, DEGREE, &[[-1, 0]])?;
    let square = source(
        rt.alloc(),
        Kind::Elevation,
        DEGREE,
        &[[30, -32768], [10, 20]],
    )?;
    // north, east, and the three elevations
    let table = [
        (0, 0, Some(0), Some(-1), Some(10)),
        (0, half, Some(1), Some(0), Some(15)),
        (half, 0, None, None, Some(20)),
        (half, half, None, None, None),
    ];
    for (up, right, first, second, third) in table {
        assert_eq!(rt; value_at(&flat, up, right), first, "{up} {right}");
        assert_eq!(rt; value_at(&below, up, right), second, "{up} {right}");
        assert_eq!(rt; value_at(&square, up, right), third, "{up} {right}");
    }
    Ok(())
}

#[test]
fn materials_of_cells(rt: HostRuntime) -> Result<(), Fail> {
    let source = source(rt.alloc(), Kind::Material, 4, &[[3, 0], [255, 7]])?;
    // north, east, and the material
    let table = [
        (0, 0, Some(255)),
        (3, 3, Some(255)),
        (3, 4, Some(7)),
        (3, 7, Some(7)),
        (4, 3, Some(3)),
        (7, 0, Some(3)),
        (4, 4, None),
        (8, 0, None),
        (0, 8, None),
        (-1, 0, None),
    ];
    for (up, right, value) in table {
        assert_eq!(rt; value_at(&source, up, right), value, "{up} {right}");
    }
    Ok(())
}

#[test]
fn points_beyond_the_globe(rt: HostRuntime) -> Result<(), Fail> {
    let level = Level::new(-10).ok_or("level")?;
    let south = arc(-90 * DEGREE).ok_or("south")?;
    let west = arc(-180 * DEGREE).ok_or("west")?;
    let step = arc(1).ok_or("step")?;
    let head = SourceHead::new(Kind::Elevation, level, south, west, step, step, 1, 1).ok_or(
        "head",
    )?;
    let mut maker = SourceMaker::new(rt.alloc(), head)?;
    maker.push_row(&[6], -32768)?;
    let source = maker.finish();
    let beyond = arc(-90 * DEGREE - 1).ok_or("beyond")?;
    let further = arc(-180 * DEGREE - 1).ok_or("further")?;
    assert_eq!(rt; sample(&source, south, west), Some(6));
    assert_eq!(rt; sample(&source, beyond, west), None);
    assert_eq!(rt; sample(&source, south, further), None);
    Ok(())
}

/// A part of a frame of four rows, the south row first, and the frame into which it is copied.
#[test]
fn a_part_of_a_frame(rt: HostRuntime) -> Result<(), Fail> {
    let from = [1, 2, 3, 4, 5, 6, 7, 8, 9, 10, 11, 12, 13, 14, 15, 16];
    let mut frame = [0; 16];
    copy_part(&from, Spot { row: 1, col: 2 }, 2, &mut frame, 4);
    assert_eq!(rt; frame, [0, 0, 0, 0, 0, 0, 7, 8, 0, 0, 11, 12, 0, 0, 0, 0]);
    Ok(())
}
