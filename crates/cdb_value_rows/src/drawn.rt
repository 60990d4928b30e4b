//! The first publications from the start 1.
use cdb_generate::{draw, draw_publication, sum_posts};
use cdb_source::{Kind, Source};
use std::process::Abort;
use std::test::Fail;

/// The arc units of one degree.
const DEGREE: i64 = 34_789_235_097_600;

/// A publication by its number, a source by its number, how many sources there are, and of the source its
/// kind, level, corner in degrees, rows, columns and first post.
#[derive(Clone, Copy)]
struct Row {
    publication: u32,
    source: usize,
    sources: usize,
    kind: Kind,
    level: i8,
    corner: (i16, i16),
    rows: u32,
    cols: u32,
    first: i16,
}

static ROWS: [Row; 6] = [
    Row {
        publication: 1,
        source: 0,
        sources: 2,
        kind: Kind::Material,
        level: -5,
        corner: (41, 8),
        rows: 39,
        cols: 53,
        first: 16,
    },
    Row {
        publication: 1,
        source: 1,
        sources: 2,
        kind: Kind::Elevation,
        level: -1,
        corner: (46, 4),
        rows: 58,
        cols: 1,
        first: 1243,
    },
    Row {
        publication: 2,
        source: 0,
        sources: 1,
        kind: Kind::Elevation,
        level: 1,
        corner: (49, 10),
        rows: 24,
        cols: 28,
        first: 1858,
    },
    Row {
        publication: 3,
        source: 0,
        sources: 2,
        kind: Kind::Elevation,
        level: -5,
        corner: (41, 5),
        rows: 36,
        cols: 2,
        first: 1319,
    },
    Row {
        publication: 3,
        source: 1,
        sources: 2,
        kind: Kind::Elevation,
        level: -6,
        corner: (50, 9),
        rows: 54,
        cols: 21,
        first: 1439,
    },
    Row {
        publication: 4,
        source: 0,
        sources: 1,
        kind: Kind::Elevation,
        level: 1,
        corner: (48, 0),
        rows: 50,
        cols: 27,
        first: 122,
    },
];

fn is_drawn(source: &Source, row: &Row) -> bool {
    let head = &source.head;
    head.kind == row.kind
        && head.level.number == row.level
        && head.lat.units == i64::from(row.corner.0) * DEGREE
        && head.lon.units == i64::from(row.corner.1) * DEGREE
        && (head.rows, head.cols) == (row.rows, row.cols)
        && source.posts.as_slice().get(0) == Some(&row.first)
}

#[test]
fn first_publications(rt: HostRuntime) -> Result<(), Fail> {
    let mut state = 1;
    assert_eq!(rt; draw(&mut state), 1_817_669_548);
    for row in ROWS.iter() {
        let mut state = 1;
        for _passed in 1..row.publication {
            let _sources = draw_publication(rt.alloc(), &mut state)?;
        }
        let sources = draw_publication(rt.alloc(), &mut state)?;
        assert_eq!(rt; sources.len(), row.sources);
        let source = sources.as_slice().get(row.source).ok_or("source")?;
        assert!(rt; is_drawn(source, row));
    }
    Ok(())
}

#[test]
fn sums(rt: HostRuntime) -> Result<(), Fail> {
    assert_eq!(rt; sum_posts(Kind::Elevation, &[-32768, -3, 0, 10]), 7);
    assert_eq!(rt; sum_posts(Kind::Material, &[0, 3, 0, 255]), 258);
    assert_eq!(rt; sum_posts(Kind::Elevation, &[]), 0);
    Ok(())
}
