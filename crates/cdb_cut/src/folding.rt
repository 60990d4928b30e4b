//! The frame of a tile before sources are painted: no value anywhere, and finer tiles folded in.
ghost use Rattle.std.specs.Prelude.{◌≡◌, ◌+◌, ◌*◌, ◌/◌, ◌%◌, ◌≤◌, [], List, length};
ghost use Rattle.cdb_grid.specs.Frames.{IsPartChanged, four_under};
ghost use Rattle.cdb_grid.specs.Tiles.{tile_side};
ghost use Rattle.cdb_source.specs.declared.source.Source as sources;
ghost use Rattle.cdb_cut.specs.FinerTiles.{elevation_tile};
ghost use Rattle.cdb_cut.specs.OneTile.{four_rule, IsFolded, no_values};

use cdb_grid::{Family, Spot, Tile};
use cdb_source::kind_of;

/// Leaves a frame without values.
pub fn clear(tile: &Tile, frame: &mut [i16])
    requires { length frame.old ≡ tile_side tile.now * tile_side tile.now }
    ensures { (ss : List sources.Source) → IsFolded ss tile.now no_values [] frame.new }
{
    let none = kind_of(tile.family).no_value();
    for k in 0..frame.len() {
        frame[k] = none;
    }
}

/// Folds a finer tile into the part of a frame that it stands under, by the rule of its family.
pub fn fold(
    family: Family,
    child: &[i16],
    child_side: u32,
    spot: Spot,
    frame: &mut [i16],
    frame_side: u32,
)
    requires even { child_side % 2 ≡ 0 }
    requires child { length child.now ≡ child_side * child_side }
    requires frame { length frame.old ≡ frame_side * frame_side }
    requires row_fits { spot.row + child_side / 2 ≤ frame_side }
    requires col_fits { spot.col + child_side / 2 ≤ frame_side }
    ensures { IsPartChanged (four_under (four_rule family) child.now child_side) spot.row spot.col (child_side / 2)
        (child_side / 2) frame_side frame.old frame.new }
{
    match family {
        Family::Elev => cdb_elev::fold(child, child_side, spot, frame, frame_side),
        Family::Low => cdb_minmax::fold_low(child, child_side, spot, frame, frame_side),
        Family::High => cdb_minmax::fold_high(child, child_side, spot, frame, frame_side),
        Family::Mat => cdb_material::fold(child, child_side, spot, frame, frame_side),
    }
}

/// The tile of elevations of the same cells.
pub fn elevation_tile(tile: &Tile) -> Tile
    ensures { result ≡ elevation_tile tile.now }
{
    Tile {
        family: Family::Elev,
        cell: tile.cell,
        level: tile.level,
        up: tile.up,
        right: tile.right,
    }
}
