//! Sources, from numbers.
use cdb_grid::{Arc, Family, Level};
use cdb_source::{Kind, Posts, Source, SourceHead, SourceMaker, kind_of, laws};
use std::alloc::Global;
use std::test::Fail;

const DEGREE: i64 = 34789235097600;

fn arc(units: i64) -> Option<Arc> {
    if units < -360 * DEGREE || units > 360 * DEGREE {
        return None;
    }
    Some(Arc { units })
}

const NORTH: i64 = 90 * DEGREE;

const EAST: i64 = 180 * DEGREE;

const WIDEST: i64 = 12 * DEGREE;

/// A kind, the south-west corner, steps, rows and columns, and whether it is a head.
static HEADS: [(Kind, i64, i64, i64, i64, u32, u32, bool); 25] = [
    // a single post at the north-east end of the globe, and a cell that would pass it
    (Kind::Elevation, NORTH, EAST, 1, 1, 1, 1, true),
    (Kind::Material, NORTH, 0, 1, 1, 1, 1, false),
    (Kind::Material, NORTH - 1, EAST - 1, 1, 1, 1, 1, true),
    (Kind::Material, 0, EAST, 1, 1, 1, 1, false),
    // the south and the west end
    (Kind::Elevation, -NORTH, -EAST, 1, 1, 1, 1, true),
    (Kind::Elevation, -NORTH - 1, 0, 1, 1, 1, 1, false),
    (Kind::Elevation, 0, -EAST - 1, 1, 1, 1, 1, false),
    // the last row at the pole, and one row more
    (Kind::Elevation, 0, 0, DEGREE, DEGREE, 91, 1, true),
    (Kind::Elevation, 0, 0, DEGREE, DEGREE, 92, 1, false),
    (Kind::Material, 0, 0, DEGREE, DEGREE, 90, 1, true),
    (Kind::Material, 0, 0, DEGREE, DEGREE, 91, 1, false),
    (Kind::Elevation, 0, 0, DEGREE, DEGREE, 1, 181, true),
    (Kind::Elevation, 0, 0, DEGREE, DEGREE, 1, 182, false),
    // steps
    (Kind::Elevation, 0, 0, WIDEST, WIDEST, 1, 1, true),
    (Kind::Elevation, 0, 0, WIDEST + 1, WIDEST, 1, 1, false),
    (Kind::Elevation, 0, 0, WIDEST, WIDEST + 1, 1, 1, false),
    (Kind::Elevation, 0, 0, 0, 1, 1, 1, false),
    (Kind::Elevation, 0, 0, 1, -1, 1, 1, false),
    // rows and columns
    (Kind::Elevation, 0, 0, 1, 1, 0, 1, false),
    (Kind::Elevation, 0, 0, 1, 1, 1, 0, false),
    (Kind::Elevation, 0, 0, 1, 1, 65536, 1, true),
    (Kind::Elevation, 0, 0, 1, 1, 1, 65537, false),
    (Kind::Elevation, 0, 0, 1, 1, 4096, 4096, true),
    (Kind::Elevation, 0, 0, 1, 1, 4096, 4097, false),
    // a reach of 2^64 + 65534 units
    (Kind::Elevation, 0, 0, 281479271743490, 1, 65536, 1, false),
];

#[test]
fn heads_at_their_limits(rt: HostRuntime) -> Result<(), Fail> {
    let level = Level::new(-9).ok_or("level")?;
    for (kind, lat, lon, dlat, dlon, rows, cols, is_head) in HEADS.iter() {
        let lat = arc(*lat).ok_or("lat")?;
        let lon = arc(*lon).ok_or("lon")?;
        let dlat = arc(*dlat).ok_or("dlat")?;
        let dlon = arc(*dlon).ok_or("dlon")?;
        let head = SourceHead::new(*kind, level, lat, lon, dlat, dlon, *rows, *cols);
        assert_eq!(rt;
            head.is_some(),
            *is_head,
            "{} {} rows, {} columns",
            dlat.units,
            *rows,
            *cols
        );
    }
    Ok(())
}

/// A kind, rows and columns of half a degree from N46E007, and the box in halves of a degree from the
/// south pole and from the meridian of -180 degrees: south, north, west and east.
static BOXES: [(Kind, u32, u32, [u64; 4]); 5] = [
    (Kind::Elevation, 1, 1, [272, 272, 374, 374]),
    (Kind::Material, 1, 1, [272, 273, 374, 375]),
    (Kind::Elevation, 3, 5, [272, 274, 374, 378]),
    // to the pole and to the meridian of 180 degrees
    (Kind::Elevation, 89, 347, [272, 360, 374, 720]),
    (Kind::Material, 88, 346, [272, 360, 374, 720]),
];

#[test]
fn boxes_of_sources(rt: HostRuntime) -> Result<(), Fail> {
    let level = Level::new(-9).ok_or("level")?;
    let half = DEGREE / 2;
    let lat = arc(92 * half).ok_or("lat")?;
    let lon = arc(14 * half).ok_or("lon")?;
    let step = arc(half).ok_or("step")?;
    for (kind, rows, cols, edges) in BOXES.iter() {
        let head = SourceHead::new(*kind, level, lat, lon, step, step, *rows, *cols).ok_or("head")?;
        let [south, north, west, east] = *edges;
        let half = half as u64;
        assert_eq!(rt;
            [head.south(), head.north(), head.west(), head.east()],
            [south * half, north * half, west * half, east * half]
        );
        assert_eq!(rt; [head.row_step(), head.column_step()], [half, half]);
    }
    Ok(())
}

#[test]
fn kinds_of_families(rt: HostRuntime) {
    for (family, kind, no_value) in [
        (Family::Elev, Kind::Elevation, -32768),
        (Family::Low, Kind::Elevation, -32768),
        (Family::High, Kind::Elevation, -32768),
        (Family::Mat, Kind::Material, 0),
    ] {
        assert_eq!(rt; kind_of(family), kind);
        assert_eq!(rt; kind.no_value(), no_value);
    }
}

/// The posts that a row becomes in a source of one row at N00E000, and whether it was taken. After a
/// row that was refused the next one is taken.
fn posts_of(
    alloc: Global,
    kind: Kind,
    novalue: i32,
    row: &[i32; 2],
) -> Result<(bool, Source), Fail> {
    let level = Level::new(-9).ok_or("level")?;
    let step = arc(1).ok_or("step")?;
    let corner = arc(0).ok_or("corner")?;
    let head = SourceHead::new(kind, level, corner, corner, step, step, 1, 2).ok_or("head")?;
    let mut maker = SourceMaker::new(alloc, head)?;
    match maker.push_row(row, novalue) {
        Ok(()) => Ok((true, maker.finish())),
        Err(_) => {
            maker.push_row(&[3, 4], 0)?;
            Ok((false, maker.finish()))
        }
    }
}

#[test]
fn numbers_become_posts(rt: HostRuntime) -> Result<(), Fail> {
    // kind, mark of no value, row, whether it is taken, and the posts
    let table = [
        (
            Kind::Elevation,
            -32768,
            [-32768, 32767],
            true,
            [-32768, 32767],
        ),
        (Kind::Elevation, -32768, [-32769, 0], false, [3, 4]),
        (Kind::Elevation, -32768, [0, 32768], false, [3, 4]),
        // the mark of no value may be any number, and an ordinary one is then no value
        (Kind::Elevation, -99999, [-99999, 5], true, [-32768, 5]),
        (Kind::Elevation, 7, [7, -7], true, [-32768, -7]),
        (Kind::Material, -1, [-1, 255], true, [0, 255]),
        (Kind::Material, 255, [0, 255], true, [0, 0]),
        (Kind::Material, 0, [256, 1], false, [3, 4]),
        (Kind::Material, 0, [1, -1], false, [3, 4]),
    ];
    for (kind, novalue, row, taken, posts) in &table {
        let (was_taken, source) = posts_of(rt.alloc(), *kind, *novalue, row)?;
        assert_eq!(rt; was_taken, *taken, "row {} {}", row[0], row[1]);
        assert_eq!(rt;
            source.posts.as_slice(),
            posts.as_slice(),
            "row {} {}",
            row[0],
            row[1]
        );
    }
    Ok(())
}

#[test]
fn rows_stand_south_first(rt: HostRuntime) -> Result<(), Fail> {
    let level = Level::new(-9).ok_or("level")?;
    let step = Arc::of_fraction(1, 2).ok_or("step")?;
    let lat = Arc::of_fraction(46, 1).ok_or("lat")?;
    let lon = Arc::of_fraction(7, 1).ok_or("lon")?;
    let head = SourceHead::new(Kind::Elevation, level, lat, lon, step, step, 2, 2).ok_or("head")?;
    let mut maker = SourceMaker::new(rt.alloc(), head)?;
    maker.push_row(&[30, 40], -32768)?;
    maker.push_row(&[10, 20], -32768)?;
    let source = maker.finish();
    assert_eq!(rt; source.head, head);
    assert_eq!(rt; source.posts.as_slice(), [10, 20, 30, 40].as_slice());
    let Source { head: _, posts } = source;
    let posts = posts.into_vec();
    assert_eq!(rt; Posts::from(posts).as_slice().len(), 4);
    laws::best_source();
    laws::finer_places();
    laws::elevation_from_finer();
    laws::earlier_sources_stand();
    laws::three_passes();
    laws::least_of_cell();
    laws::greatest_of_cell();
    laws::most_frequent();
    laws::material_with_later_sources();
    laws::reaching_sources_alone();
    laws::samples();
    laws::touched_within_load();
    laws::one_bad_place();
    laws::source_has_none();
    laws::source_file_length();
    Ok(())
}
