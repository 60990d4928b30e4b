//! Finer tiles folded into the four cells of a coarser one.
use cdb_grid::Spot;
use cdb_minmax::{fold_high, fold_low, start};
use std::test::Fail;

/// No value.
const NONE: i16 = -32768;

/// The four elevations of a finer tile, the south row first; what the coarser cell has before and
/// after.
static ELEVATIONS: [([i16; 4], i16, i16); 5] = [
    ([10, 20, 30, 40], NONE, 10),
    ([10, 20, 30, 40], 99, 10),
    ([NONE, 20, 30, 40], 99, 99),
    ([NONE, NONE, NONE, 7], NONE, NONE),
    ([-1, 0, NONE, NONE], 5, -1),
];

#[test]
fn one_level_of_elevations(rt: HostRuntime) -> Result<(), Fail> {
    for (child, before, after) in ELEVATIONS.iter() {
        let mut frame = [1, 2, *before, 4];
        let spot = Spot { row: 1, col: 0 };
        cdb_elev::fold(child, 2, spot, &mut frame, 2);
        assert_eq!(rt; frame, [1, 2, *after, 4]);
    }
    Ok(())
}

/// The four elevations of a finer tile, the south row first; the elevation of the coarser cell; the
/// least and the greatest one.
static EXTREMES: [([i16; 4], i16, i16, i16); 6] = [
    ([10, 20, 30, 40], 10, 10, 40),
    ([10, 20, 30, 40], 5, 5, 40),
    ([10, 20, 30, 40], 99, 10, 99),
    ([NONE, NONE, NONE, 7], NONE, 7, 7),
    ([NONE, -3, -2, NONE], NONE, -3, -2),
    ([NONE, NONE, NONE, NONE], 7, 7, 7),
];

#[test]
fn one_level_of_least_and_greatest(rt: HostRuntime) -> Result<(), Fail> {
    for (child, elev, least, greatest) in EXTREMES.iter() {
        let elevations = [1, *elev, 3, 4];
        let spot = Spot { row: 0, col: 1 };
        let mut low = [0; 4];
        start(&elevations, &mut low);
        fold_low(child, 2, spot, &mut low, 2);
        assert_eq!(rt; low, [1, *least, 3, 4]);
        let mut high = [0; 4];
        start(&elevations, &mut high);
        fold_high(child, 2, spot, &mut high, 2);
        assert_eq!(rt; high, [1, *greatest, 3, 4]);
    }
    Ok(())
}

/// The four materials of a finer tile, the south row first; what the coarser cell has before and after.
static MATERIALS: [([i16; 4], i16, i16); 9] = [
    ([5, 3, 3, 5], 0, 3),
    ([0, 7, 0, 0], 0, 7),
    ([0, 7, 0, 0], 9, 7),
    ([0, 0, 0, 0], 9, 9),
    // ties that aren't two and two
    ([9, 0, 0, 4], 0, 4),
    ([9, 4, 6, 5], 0, 4),
    ([0, 255, 8, 9], 1, 8),
    // no tie
    ([2, 200, 9, 200], 0, 200),
    ([9, 9, 9, 1], 0, 9),
];

#[test]
fn one_level_of_materials(rt: HostRuntime) -> Result<(), Fail> {
    for (child, before, after) in MATERIALS.iter() {
        let mut frame = [1, 2, 3, *before];
        let spot = Spot { row: 1, col: 1 };
        cdb_material::fold(child, 2, spot, &mut frame, 2);
        assert_eq!(rt; frame, [1, 2, 3, *after]);
    }
    Ok(())
}
