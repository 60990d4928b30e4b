//! Tiles built from sources, place by place.
ghost use Rattle.std.specs.Prelude.{◌≡◌, length, IfOk};

use cdb_grid::{Arc, Family, Level, side, tile_at};
use cdb_scratch::build;
use cdb_source::{Kind, Source, SourceHead, SourceMaker};
use std::alloc::Global;
use std::test::Fail;

/// A source's level, south-west corner and steps, in fractions of a degree.
#[derive(Drop)]
struct Form {
    level: i32,
    lat: (i64, i64),
    lon: (i64, i64),
    dlat: (i64, i64),
    dlon: (i64, i64),
}

/// A half degree in both directions at 46 degrees north and 7 east.
const HALF: Form = Form {
    level: -9,
    lat: (46, 1),
    lon: (7, 1),
    dlat: (1, 2),
    dlon: (1, 2),
};

const WHOLE: Form = Form {
    level: -10,
    lat: (46, 1),
    lon: (7, 1),
    dlat: (1, 1),
    dlon: (1, 1),
};

/// The finest level, in the north-east corner of the geocell.
const CORNER: Form = Form {
    level: 23,
    lat: (403726925823, 8589934592),
    lon: (68719476735, 8589934592),
    dlat: (1, 1),
    dlon: (1, 1),
};

/// A whole degree, of which a cell of material covers the south-west quarter alone.
const QUARTER: Form = Form {
    level: -10,
    lat: (46, 1),
    lon: (7, 1),
    dlat: (1, 2),
    dlon: (1, 2),
};

fn head(kind: Kind, form: &Form, rows: u32, cols: u32) -> Result<SourceHead, Fail>
    ensures rows { IfOk result (λ head. head.rows ≡ rows) }
    ensures cols { IfOk result (λ head. head.cols ≡ cols) }
{
    let level = Level::new(form.level).ok_or("level")?;
    let lat = Arc::of_fraction(form.lat.0, form.lat.1).ok_or("lat")?;
    let lon = Arc::of_fraction(form.lon.0, form.lon.1).ok_or("lon")?;
    let dlat = Arc::of_fraction(form.dlat.0, form.dlat.1).ok_or("dlat")?;
    let dlon = Arc::of_fraction(form.dlon.0, form.dlon.1).ok_or("dlon")?;
    let head = SourceHead::new(kind, level, lat, lon, dlat, dlon, rows, cols);
    Ok(head.ok_or("head")?)
}

/// A source of one post.
fn one_post(alloc: Global, kind: Kind, form: &Form, post: i32) -> Result<Source, Fail> {
    let mut maker = SourceMaker::new(alloc, head(kind, form, 1, 1)?)?;
    maker.push_row(&[post], i32::from(kind.no_value()))?;
    Ok(maker.finish())
}

/// A source of two rows of two posts, the north row first.
fn four_posts(
    alloc: Global,
    kind: Kind,
    form: &Form,
    north: [i32; 2],
    south: [i32; 2],
) -> Result<Source, Fail> {
    let mut maker = SourceMaker::new(alloc, head(kind, form, 2, 2)?)?;
    maker.push_row(&north, i32::from(kind.no_value()))?;
    maker.push_row(&south, i32::from(kind.no_value()))?;
    Ok(maker.finish())
}

/// Whether the tile of a family at the geocell's corner is reached, and its first numbers, the south row first.
fn build_tile(sources: &[Source], family: Family, level: i32) -> Option<(bool, [i16; 4])> {
    let level = Level::new(level)?;
    let tile = tile_at(
        family,
        level,
        Arc::of_fraction(46, 1)?,
        Arc::of_fraction(7, 1)?,
    )?;
    let side = side(tile.level) as usize;
    if side > 2 {
        return None;
    }
    let mut frame = [0; 4];
    let reached = build(sources, &tile, &mut frame[..side * side]);
    Some((reached, frame))
}

#[test]
fn one_source(rt: HostRuntime) -> Result<(), Fail> {
    let sources = [four_posts(rt.alloc(), Kind::Elevation, &HALF, [30, 40], [10, 20])?];
    assert!(rt; build_tile(&sources, Family::Elev, -9) == Some((true, [10, 20, 30, 40])));
    assert!(rt; build_tile(&sources, Family::Elev, -10) == Some((true, [10, 0, 0, 0])));
    assert!(rt; build_tile(&sources, Family::Low, -10) == Some((true, [10, 0, 0, 0])));
    assert!(rt; build_tile(&sources, Family::High, -10) == Some((true, [40, 0, 0, 0])));
    assert!(rt; build_tile(&sources, Family::High, -9) == Some((true, [10, 20, 30, 40])));
    Ok(())
}

#[test]
fn a_newer_coarser_source(rt: HostRuntime) -> Result<(), Fail> {
    let finer = four_posts(rt.alloc(), Kind::Elevation, &HALF, [30, 40], [10, 20])?;
    let coarser = one_post(rt.alloc(), Kind::Elevation, &WHOLE, 99)?;
    let sources = [finer, coarser];
    assert!(rt; build_tile(&sources, Family::Elev, -10) == Some((true, [10, 0, 0, 0])));
    assert!(rt; build_tile(&sources, Family::High, -10) == Some((true, [40, 0, 0, 0])));
    Ok(())
}

#[test]
fn a_source_of_the_finest_level(rt: HostRuntime) -> Result<(), Fail> {
    let sources = [one_post(rt.alloc(), Kind::Elevation, &CORNER, 7)?];
    assert!(rt; build_tile(&sources, Family::Elev, -10) == Some((true, [-32768, 0, 0, 0])));
    assert!(rt; build_tile(&sources, Family::Low, -10) == Some((true, [7, 0, 0, 0])));
    assert!(rt; build_tile(&sources, Family::High, -10) == Some((true, [7, 0, 0, 0])));
    assert!(rt; build_tile(&[], Family::Low, -10) == Some((false, [-32768, 0, 0, 0])));
    Ok(())
}

#[test]
fn a_newer_source_of_one_level(rt: HostRuntime) -> Result<(), Fail> {
    let older = one_post(rt.alloc(), Kind::Elevation, &WHOLE, 99)?;
    let newer = one_post(rt.alloc(), Kind::Elevation, &WHOLE, -3)?;
    let sources = [older, newer];
    assert!(rt; build_tile(&sources, Family::Elev, -10) == Some((true, [-3, 0, 0, 0])));
    assert!(rt; build_tile(&sources, Family::High, -10) == Some((true, [-3, 0, 0, 0])));
    assert!(rt; build_tile(&sources, Family::Mat, -10) == Some((false, [0, 0, 0, 0])));
    Ok(())
}

#[test]
fn materials(rt: HostRuntime) -> Result<(), Fail> {
    let two_of_each = four_posts(rt.alloc(), Kind::Material, &HALF, [3, 5], [5, 3])?;
    let sources = [two_of_each];
    assert!(rt; build_tile(&sources, Family::Mat, -10) == Some((true, [3, 0, 0, 0])));
    assert!(rt; build_tile(&sources, Family::Mat, -9) == Some((true, [5, 3, 3, 5])));
    assert!(rt; build_tile(&sources, Family::Elev, -10) == Some((false, [-32768, 0, 0, 0])));
    let one_alone = four_posts(rt.alloc(), Kind::Material, &HALF, [0, 0], [0, 7])?;
    let sources = [one_alone];
    assert!(rt; build_tile(&sources, Family::Mat, -10) == Some((true, [7, 0, 0, 0])));
    assert!(rt; build_tile(&sources, Family::Mat, -9) == Some((true, [0, 7, 0, 0])));
    Ok(())
}

#[test]
fn a_newer_coarser_material(rt: HostRuntime) -> Result<(), Fail> {
    let finer = four_posts(rt.alloc(), Kind::Material, &HALF, [3, 5], [5, 3])?;
    let coarser = one_post(rt.alloc(), Kind::Material, &WHOLE, 8)?;
    let sources = [finer, coarser];
    assert!(rt; build_tile(&sources, Family::Mat, -10) == Some((true, [3, 0, 0, 0])));
    Ok(())
}

#[test]
fn materials_of_one_level(rt: HostRuntime) -> Result<(), Fail> {
    let older = one_post(rt.alloc(), Kind::Material, &WHOLE, 8)?;
    let newer = one_post(rt.alloc(), Kind::Material, &WHOLE, 9)?;
    let sources = [older, newer];
    assert!(rt; build_tile(&sources, Family::Mat, -10) == Some((true, [9, 0, 0, 0])));
    Ok(())
}

#[test]
fn a_material_beside_the_centre(rt: HostRuntime) -> Result<(), Fail> {
    let sources = [one_post(rt.alloc(), Kind::Material, &QUARTER, 4)?];
    assert!(rt; build_tile(&sources, Family::Mat, -10) == Some((false, [0, 0, 0, 0])));
    Ok(())
}
