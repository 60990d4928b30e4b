//! The tiles of a height that a source reaches: a rectangle in each row of geocells.
ghost use Rattle.std.specs.Prelude.{◌≡◌, ℕ, ◌↔◌, ◌+◌, ◌-◌, ◌*◌, ◌/◌, ◌≤◌, ◌<◌};
ghost use Rattle.cdb_grid.specs.Units.{tiles_of, width_at, row_of};
ghost use Rattle.cdb_grid.specs.Tiles.{tile_height};
ghost use Rattle.cdb_grid.specs.declared.family.Family.{Family};
ghost use Rattle.cdb_grid.specs.declared.tile.Tile.{Tile};
ghost use Rattle.cdb_source.specs.Reached.{kind_of, source_height, Reaches};
ghost use Rattle.cdb_touch.specs.inside.Numbers.{IsInRectangle};
ghost use Rattle.cdb_touch.specs.inside.Reach.{IsOfRow};

use crate::axis::Run;
use crate::head::{columns, rows};
use crate::heights;
use cdb_source::SourceHead;

/// Tiles of one height in one row of geocells, by the numbers of their rows and columns.
#[derive(Clone, Copy)]
pub(crate) struct Rectangle {
    pub rows: Run,
    pub columns: Run,
}

/// The rows of geocells that have tiles of a height that a source may reach, counted from the south
/// pole.
pub(crate) fn geocell_rows(head: &SourceHead, height: u32) -> Run
    requires finer { source_height head.now ≤ height }
    requires most { height ≤ 34 }
    ensures each { (t : Tile) → Reaches head.now t → tile_height t ≡ height →
        (result.first ≤ row_of t.cell.lat) × (row_of t.cell.lat < result.end) }
    ensures order { result.first ≤ result.end }
    ensures within { result.end ≤ 180 }
{
    let rows = rows(head, height);
    let tiles = heights::tiles(height);
    Run {
        first: rows.first / tiles,
        end: rows.end.div_ceil(tiles),
    }
}

/// The tiles of a height in a row of geocells that a source reaches.
pub(crate) fn reached_in_row(head: &SourceHead, height: u32, row: u64) -> Rectangle
    requires finer { source_height head.now ≤ height }
    requires most { height ≤ 34 }
    requires row { row < 180 }
    ensures each { (f : Family) (t : Tile) → head.now.kind ≡ kind_of f →
        IsInRectangle f height result.rows result.columns t ↔ IsOfRow head.now f height row t }
    ensures south { row * tiles_of height ≤ result.rows.first }
    ensures north { result.rows.end ≤ row * tiles_of height + tiles_of height }
    ensures east { result.columns.end ≤ 360 / width_at row * tiles_of height }
{
    let rows = rows(head, height);
    let tiles = heights::tiles(height);
    let (south, north) = (row * tiles, row * tiles + tiles);
    Rectangle {
        rows: Run {
            first: rows.first.max(south),
            end: rows.end.min(north),
        },
        columns: columns(head, height, row),
    }
}
