//! Sources cut into the frames of tiles.
use crate::samples::source_at;
use cdb_cut::{Rows, paint, window};
use cdb_grid::{Arc, Family, Level, Tile, side, tile_at};
use cdb_source::{Kind, Source};
use std::alloc::Global;
use std::test::Fail;

/// No elevation.
const NONE: i16 = -32768;

/// A source, in fractions of a degree, its rows north first; a tile of level -9, by a place in it; the
/// tile's frame before, south row first; the rows of the source's window, and the frame after.
#[derive(Drop)]
struct Case {
    kind: Kind,
    lat: (i64, i64),
    lon: (i64, i64),
    step: (i64, i64),
    rows: &'static [[i32; 2]],
    tile: (i64, i64),
    before: [i16; 4],
    window: Option<Rows>,
    after: [i16; 4],
}

static CASES: [Case; 14] = [
    // posts at the tile's own places
    Case {
        kind: Kind::Elevation,
        lat: (46, 1),
        lon: (7, 1),
        step: (1, 2),
        rows: &[[30, 40], [10, 20]],
        tile: (46, 7),
        before: [NONE; 4],
        window: Some(Rows { first: 0, count: 2 }),
        after: [10, 20, 30, 40],
    },
    // what is there stays
    Case {
        kind: Kind::Elevation,
        lat: (46, 1),
        lon: (7, 1),
        step: (1, 2),
        rows: &[[30, 40], [10, 20]],
        tile: (46, 7),
        before: [99, NONE, 0, NONE],
        window: Some(Rows { first: 0, count: 2 }),
        after: [99, 20, 0, 40],
    },
    // a window of one row, and halves
    Case {
        kind: Kind::Elevation,
        lat: (46, 1),
        lon: (7, 1),
        step: (1, 1),
        rows: &[[0, 1]],
        tile: (46, 7),
        before: [NONE; 4],
        window: Some(Rows { first: 0, count: 1 }),
        after: [0, 1, NONE, NONE],
    },
    Case {
        kind: Kind::Elevation,
        lat: (46, 1),
        lon: (7, 1),
        step: (1, 1),
        rows: &[[-1, 0]],
        tile: (46, 7),
        before: [NONE; 4],
        window: Some(Rows { first: 0, count: 1 }),
        after: [-1, 0, NONE, NONE],
    },
    // a post without a value
    Case {
        kind: Kind::Elevation,
        lat: (46, 1),
        lon: (7, 1),
        step: (1, 1),
        rows: &[[30, -32768], [10, 20]],
        tile: (46, 7),
        before: [NONE; 4],
        window: Some(Rows { first: 0, count: 2 }),
        after: [10, 15, 20, NONE],
    },
    // weights 1 and 1, and 1 and 3
    Case {
        kind: Kind::Elevation,
        lat: (46, 1),
        lon: (6, 1),
        step: (2, 1),
        rows: &[[-3, 0]],
        tile: (46, 7),
        before: [NONE; 4],
        window: Some(Rows { first: 0, count: 1 }),
        after: [-1, -1, NONE, NONE],
    },
    // a source that ends on the tile's south edge, and on its west edge
    Case {
        kind: Kind::Elevation,
        lat: (45, 1),
        lon: (7, 1),
        step: (1, 1),
        rows: &[[30, 40], [10, 20]],
        tile: (46, 7),
        before: [NONE; 4],
        window: Some(Rows { first: 1, count: 1 }),
        after: [30, 35, NONE, NONE],
    },
    Case {
        kind: Kind::Elevation,
        lat: (46, 1),
        lon: (6, 1),
        step: (1, 1),
        rows: &[[30, 40], [10, 20]],
        tile: (46, 7),
        before: [NONE; 4],
        window: Some(Rows { first: 0, count: 2 }),
        after: [20, NONE, 30, NONE],
    },
    // and one that ends short of it
    Case {
        kind: Kind::Elevation,
        lat: (45, 1),
        lon: (7, 1),
        step: (2047, 2048),
        rows: &[[30, 40], [10, 20]],
        tile: (46, 7),
        before: [NONE; 4],
        window: None,
        after: [NONE; 4],
    },
    // cells, one of them without a material
    Case {
        kind: Kind::Material,
        lat: (46, 1),
        lon: (7, 1),
        step: (1, 2),
        rows: &[[3, 5], [0, 3]],
        tile: (46, 7),
        before: [0, 0, 9, 0],
        window: Some(Rows { first: 0, count: 2 }),
        after: [0, 3, 9, 5],
    },
    // a cell whose west half lies in one tile and whose east half in the next: it covers the centre on
    // its west edge, and not the one on its east edge
    Case {
        kind: Kind::Material,
        lat: (46, 1),
        lon: (31, 4),
        step: (1, 2),
        rows: &[[6, 8]],
        tile: (46, 7),
        before: [0; 4],
        window: Some(Rows { first: 0, count: 1 }),
        after: [0, 6, 0, 0],
    },
    Case {
        kind: Kind::Material,
        lat: (46, 1),
        lon: (31, 4),
        step: (1, 2),
        rows: &[[6, 8]],
        tile: (46, 8),
        before: [0; 4],
        window: Some(Rows { first: 0, count: 1 }),
        after: [8, 0, 0, 0],
    },
    // the row of cells north of the centres isn't in the window
    Case {
        kind: Kind::Material,
        lat: (45, 1),
        lon: (7, 1),
        step: (1, 1),
        rows: &[[1, 2], [3, 4], [5, 6]],
        tile: (46, 7),
        before: [0; 4],
        window: Some(Rows { first: 1, count: 1 }),
        after: [3, 3, 3, 3],
    },
    Case {
        kind: Kind::Material,
        lat: (45, 1),
        lon: (7, 1),
        step: (1, 1),
        rows: &[[5, 6]],
        tile: (46, 7),
        before: [0; 4],
        window: None,
        after: [0; 4],
    },
];

fn arc(fraction: (i64, i64)) -> Result<Arc, Fail> {
    Ok(Arc::of_fraction(fraction.0, fraction.1).ok_or("arc")?)
}

fn tile_of(case: &Case) -> Result<Tile, Fail> {
    let level = Level::new(-9).ok_or("level")?;
    let family = match case.kind {
        Kind::Elevation => Family::Elev,
        Kind::Material => Family::Mat,
    };
    let (lat, lon) = (arc((case.tile.0, 1))?, arc((case.tile.1, 1))?);
    Ok(tile_at(family, level, lat, lon).ok_or("tile")?)
}

/// Paints a source's window for a tile, and says which rows it has. None where there is none, or the
/// lengths don't fit.
fn paint_window(source: &Source, tile: &Tile, frame: &mut [i16]) -> Option<Rows> {
    let rows = window(&source.head, tile)?;
    let cols = source.head.cols as usize;
    let from = rows.first as usize * cols;
    let posts = source
        .posts
        .as_slice()
        .get(from..from + rows.count as usize * cols)?;
    let side = side(tile.level) as usize;
    if frame.len() != side * side {
        return None;
    }
    paint(&source.head, rows, posts, tile, frame);
    Some(rows)
}

fn source_of(alloc: Global, case: &Case) -> Result<Source, Fail> {
    let (lat, lon, step) = (arc(case.lat)?, arc(case.lon)?, arc(case.step)?);
    source_at(alloc, case.kind, lat, lon, step, case.rows)
}

#[test]
fn tiles_from_sources(rt: HostRuntime) -> Result<(), Fail> {
    for case in CASES.iter() {
        let source = source_of(rt.alloc(), case)?;
        let tile = tile_of(case)?;
        let mut frame = case.before;
        let rows = paint_window(&source, &tile, &mut frame);
        assert_eq!(rt; rows, case.window);
        assert_eq!(rt; frame, case.after);
    }
    Ok(())
}
