//! Gathers the tiles that sources reach.
ghost use Rattle.std.specs.Prelude.{◌≡◌, ◌+◌, ◌*◌, ◌/◌, ◌≤◌, ◌<◌, OnOk};
ghost use Rattle.cdb_grid.specs.Units.{tiles_of, width_at};
ghost use Rattle.cdb_source.specs.Reached.{kind_of, source_height, Reaches, Reached};
ghost use Rattle.cdb_touch.specs.inside.Numbers.{IsInRow, IsInRectangle};
ghost use Rattle.cdb_touch.specs.inside.Reach.{IsOfFamily, IsOfHeight};
ghost use Rattle.cdb_touch.specs.inside.Touched.{AddsTiles};

use crate::axis::Run;
use crate::heights::COARSEST;
use crate::rectangle::{Rectangle, geocell_rows, reached_in_row};
use crate::tiles::tile_at;
use cdb_grid::{Family, Tile, units};
use cdb_source::{Kind, SourceHead};
use std::alloc::AllocError;

/// Pushes the tiles of a row of tiles.
fn push_row(
    tiles: &mut Vec<Tile>,
    family: Family,
    height: u32,
    row: u64,
    columns: Run,
) -> Result<(), AllocError>
    requires least { 1 ≤ height }
    requires most { height ≤ 34 }
    requires row { row < 180 * tiles_of height }
    requires columns { columns.end ≤ 360 / width_at (row / tiles_of height) * tiles_of height }
    ensures { OnOk result (AddsTiles (IsInRow family height row columns) tiles.old.items tiles.new.items) }
{
    for column in columns.first..columns.end {
        tiles.push(tile_at(family, height, row, column))?;
    }
    Ok(())
}

/// Pushes the tiles of a rectangle in a row of geocells.
fn push_rectangle(
    tiles: &mut Vec<Tile>,
    family: Family,
    height: u32,
    geocells: u64,
    rectangle: Rectangle,
) -> Result<(), AllocError>
    requires least { 1 ≤ height }
    requires most { height ≤ 34 }
    requires geocells { geocells < 180 }
    requires south { geocells * tiles_of height ≤ rectangle.rows.first }
    requires north { rectangle.rows.end ≤ geocells * tiles_of height + tiles_of height }
    requires east { rectangle.columns.end ≤ 360 / width_at geocells * tiles_of height }
    ensures { OnOk result
        (AddsTiles (IsInRectangle family height rectangle.rows rectangle.columns) tiles.old.items tiles.new.items) }
{
    if rectangle.columns.len() == 0 {
        return Ok(());
    }
    for row in rectangle.rows.first..rectangle.rows.end {
        push_row(tiles, family, height, row, rectangle.columns)?;
    }
    Ok(())
}

/// Pushes the tiles of a family and a height that a source reaches.
fn push_height(
    tiles: &mut Vec<Tile>,
    head: &SourceHead,
    family: Family,
    height: u32,
) -> Result<(), AllocError>
    requires kind { head.now.kind ≡ kind_of family }
    requires finer { source_height head.now ≤ height }
    requires most { height ≤ 34 }
    ensures { OnOk result (AddsTiles (IsOfHeight head.now family height) tiles.old.items tiles.new.items) }
{
    let rows = geocell_rows(head, height);
    for row in rows.first..rows.end {
        push_rectangle(
            tiles,
            family,
            height,
            row,
            reached_in_row(head, height, row),
        )?;
    }
    Ok(())
}

/// Pushes the tiles of a family that a source reaches.
fn push_family(tiles: &mut Vec<Tile>, head: &SourceHead, family: Family) -> Result<(), AllocError>
    requires kind { head.now.kind ≡ kind_of family }
    ensures { OnOk result (AddsTiles (IsOfFamily head.now family) tiles.old.items tiles.new.items) }
{
    for height in units::height(head.level)..COARSEST + 1 {
        push_height(tiles, head, family, height)?;
    }
    Ok(())
}

/// Pushes the tiles that a source reaches.
fn push_reached(tiles: &mut Vec<Tile>, head: &SourceHead) -> Result<(), AllocError>
    ensures { OnOk result (AddsTiles (Reaches head.now) tiles.old.items tiles.new.items) }
{
    match head.kind {
        Kind::Elevation => {
            push_family(tiles, head, Family::Elev)?;
            push_family(tiles, head, Family::Low)?;
            push_family(tiles, head, Family::High)
        }
        Kind::Material => push_family(tiles, head, Family::Mat),
    }
}

/// Pushes the tiles that each of a list of sources reaches.
pub(crate) fn push_touched(tiles: &mut Vec<Tile>, heads: &[SourceHead]) -> Result<(), AllocError>
    ensures { OnOk result (AddsTiles (Reached heads.now) tiles.old.items tiles.new.items) }
{
    for head in heads {
        push_reached(tiles, head)?;
    }
    Ok(())
}
