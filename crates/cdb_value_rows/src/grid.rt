//! Geocells, levels, tiles and places.
use cdb_grid::{
    Arc, DEGREE, Family, Geocell, Level, Spot, Tile, children, geocell_at, parent, place, side,
    spot_of, tile_at, tiles_across,
};
use std::cmp::Ordering;
use std::process::Abort;

fn arc(rt: &impl Abort, n: i64, d: i64) -> Arc {
    Arc::of_fraction(n, d).expect(rt, "a whole number of units")
}

fn level(rt: &impl Abort, number: i32) -> Level {
    Level::new(number).expect(rt, "a level")
}

// The tile of a family and a level that holds a point in halves of a degree.
fn tile(rt: &impl Abort, family: Family, number: i32, lat: i64, lon: i64) -> Tile {
    tile_at(family, level(rt, number), arc(rt, lat, 2), arc(rt, lon, 2)).expect(rt, "a point")
}

#[test]
fn geocells_of_points(rt: HostRuntime) {
    for (lat, lon, want) in [
        ((50, 1), (7, 1), Some((50, 6))),
        ((179_999, 3600), (7, 1), Some((49, 7))),
        ((89, 1), (7, 1), Some((89, 0))),
        ((-1, 2), (-1, 2), Some((-1, -1))),
        ((-90, 1), (-180, 1), Some((-90, -180))),
        ((90, 1), (0, 1), None),
        ((0, 1), (180, 1), None),
    ] {
        let cell = geocell_at(arc(&rt, lat.0, lat.1), arc(&rt, lon.0, lon.1));
        assert_eq!(rt; cell.map(|g| (g.lat, g.lon)), want);
    }
}

#[test]
fn geocells_by_their_corners(rt: HostRuntime) {
    for (lat, lon, is_one) in [
        (49, 7, true),
        (50, 6, true),
        (50, 7, false),
        (-51, 7, false),
        (89, -180, true),
        (89, 6, false),
        (-90, 168, true),
        (-90, 179, false),
        (90, 0, false),
        (-91, 0, false),
        (0, 179, true),
        (0, 180, false),
        (0, -181, false),
    ] {
        let cell = Geocell::new(lat, lon);
        assert_eq!(rt; cell.map(|g| (g.lat, g.lon)), is_one.then_some((lat, lon)));
    }
}

#[test]
fn first_and_last_geocells(rt: HostRuntime) {
    let degree = DEGREE as i64;
    for (lat, last_west) in [
        (-90_i8, 168_i16),
        (-89, 174),
        (-81, 174),
        (-80, 176),
        (-76, 176),
        (-75, 177),
        (-71, 177),
        (-70, 178),
        (-51, 178),
        (-50, 179),
        (49, 179),
        (50, 178),
        (69, 178),
        (70, 177),
        (74, 177),
        (75, 176),
        (79, 176),
        (80, 174),
        (88, 174),
        (89, 168),
    ] {
        let south = lat as i64 * degree;
        let first = geocell_at(arc(&rt, south, degree), arc(&rt, -180, 1));
        assert_eq!(rt; first.map(|g| (g.lat, g.lon)), Some((lat, -180)));
        let last = geocell_at(
            arc(&rt, south + (degree - 1), degree),
            arc(&rt, 180 * degree - 1, degree),
        );
        assert_eq!(rt; last.map(|g| (g.lat, g.lon)), Some((lat, last_west)));
    }
}

#[test]
fn levels_and_fractions(rt: HostRuntime) {
    let degree = DEGREE as i64;
    // The centre of a tile's first cell lies half a step from its corner.
    for (number, half_step, side_of_tile, across) in [
        (-10, 17_394_617_548_800, 1, 1),
        (-9, 8_697_308_774_400, 2, 1),
        (0, 16_986_931_200, 1024, 1),
        (1, 8_493_465_600, 1024, 2),
        (23, 2_025, 1024, 8_388_608),
    ] {
        let first = tile(&rt, Family::Mat, number, 92, 14);
        assert_eq!(rt; side(first.level), side_of_tile);
        assert!(rt; side(first.level) > 0);
        let (lat, _) = place(&first, 0, 0);
        assert_eq!(rt; lat.units.wrapping_sub(46 * degree), half_step);
        assert_eq!(rt; tiles_across(first.level), across);
    }
    assert_eq!(rt; Level::new(-11), None);
    assert_eq!(rt; Level::new(24), None);
    for (n, d, want) in [
        (1, 2, Some(17_394_617_548_800)),
        (-360, 1, Some(-12_524_124_635_136_000)),
        (361, 1, None),
        (1, 7, None),
        (1, 0, None),
        (1, -1, None),
    ] {
        assert_eq!(rt; Arc::of_fraction(n, d).map(|a| a.units), want);
    }
}

#[test]
fn tiles_of_points(rt: HostRuntime) {
    for (family, number, lat, lon, want) in [
        (Family::Elev, 0, 1, -1, (0, -1, 0, 0)),
        (Family::Mat, 1, 93, 14, (46, 7, 1, 0)),
        (Family::Low, -10, 93, 15, (46, 7, 0, 0)),
        (Family::High, 1, 179, 23, (89, 0, 1, 1)),
    ] {
        let t = tile(&rt, family, number, lat, lon);
        assert_eq!(rt; t.family, family);
        assert_eq!(rt; t.level, level(&rt, number));
        assert_eq!(rt; (t.cell.lat, t.cell.lon, t.up, t.right), want);
    }
}

#[test]
fn places_of_elements(rt: HostRuntime) {
    for (family, number, row, col, lat, lon) in [
        (Family::Elev, -10, 0, 0, (46, 1), (7, 1)),
        (Family::Mat, -10, 0, 0, (93, 2), (15, 2)),
        (Family::Low, -9, 1, 0, (93, 2), (7, 1)),
        (Family::High, -9, 0, 1, (46, 1), (15, 2)),
        (Family::Mat, -9, 1, 0, (187, 4), (29, 4)),
    ] {
        let t = tile(&rt, family, number, 92, 14);
        assert!(rt; row < side(t.level));
        assert!(rt; col < side(t.level));
        assert_eq!(rt;
            place(&t, row, col),
            (arc(&rt, lat.0, lat.1), arc(&rt, lon.0, lon.1))
        );
    }
}

#[test]
fn parents_and_children(rt: HostRuntime) {
    let whole = tile(&rt, Family::Elev, 0, 93, 15);
    let mut quarters = [(0, 0); 4];
    let found = children(&whole);
    assert_eq!(rt; found.len(), 4);
    for (quarter, child) in quarters.iter_mut().zip(found.as_slice()) {
        *quarter = (child.up, child.right);
        assert_eq!(rt; parent(child), Some(whole));
    }
    assert_eq!(rt; quarters, [(0, 0), (0, 1), (1, 0), (1, 1)]);
    let north_west = tile(&rt, Family::Elev, 1, 93, 14);
    assert!(rt; north_west.level.number > -10);
    assert_eq!(rt; spot_of(&north_west), Spot { row: 512, col: 0 });
    assert_eq!(rt; parent(&tile(&rt, Family::Elev, -10, 93, 15)), None);
    assert_eq!(rt; children(&tile(&rt, Family::Elev, -10, 93, 15)).len(), 1);
    assert_eq!(rt; children(&tile(&rt, Family::Elev, 23, 93, 15)).len(), 0);
}

#[test]
fn tiles_in_order(rt: HostRuntime) {
    let ascending = [
        tile(&rt, Family::Elev, 1, 93, 15),
        tile(&rt, Family::Elev, 0, -2, 0),
        Tile::default(),
        tile(&rt, Family::Elev, -10, 92, 14),
        tile(&rt, Family::Elev, -10, 92, 16),
        tile(&rt, Family::Low, 23, 0, 0),
        tile(&rt, Family::High, 1, 92, 14),
        tile(&rt, Family::High, 1, 92, 15),
        tile(&rt, Family::High, 1, 93, 14),
        tile(&rt, Family::Mat, 0, 0, 0),
    ];
    for pair in ascending.windows(2) {
        assert_eq!(rt; pair[0].cmp(&pair[1]), Ordering::Less);
    }
}
