//! The value of a cell.
ghost use Rattle.std.specs.Prelude.{◌≡◌, ◌≤◌, map};
ghost use Rattle.cdb_grid.specs.Grid.{IsCorner};
ghost use Rattle.cdb_source.specs.Values.{sampled, lesser, greater};
ghost use Rattle.cdb_source.specs.Reached.{family_value};
ghost use Rattle.cdb_scratch.specs.inside.Summaries.{summary_kind, summary_of, own_of, combined};

use crate::elevation::elevation;
use crate::material::own_material;
use crate::places::width;
use crate::reach::is_cell_reached;
use cdb_grid::Family;
use cdb_grid::units::step;
use cdb_material::{Four, mode};
use cdb_source::{Kind, Source};

/// What of a cell and its finer cells is asked for: the least or the greatest elevation, or the
/// most frequent material.
#[derive(Clone, Copy)]
pub(crate) enum Summary {
    Least,
    Greatest,
    MostFrequent,
}

/// The kind of sources of which it is.
fn kind(which: Summary) -> Kind
    ensures { result ≡ summary_kind which }
{
    match which {
        Summary::Least | Summary::Greatest => Kind::Elevation,
        Summary::MostFrequent => Kind::Material,
    }
}

/// The lesser of two values, one that is none passed over.
fn lesser(a: Option<i16>, b: Option<i16>) -> Option<i16>
    ensures { result ≡ lesser a b }
{
    match (a, b) {
        (Some(x), Some(y)) => Some(if y < x { y } else { x }),
        (x, None) => x,
        (None, y) => y,
    }
}

/// The greater of two values, one that is none passed over.
fn greater(a: Option<i16>, b: Option<i16>) -> Option<i16>
    ensures { result ≡ greater a b }
{
    match (a, b) {
        (Some(x), Some(y)) => Some(if x < y { y } else { x }),
        (x, None) => x,
        (None, y) => y,
    }
}

/// The value of a cell by itself: the elevation at its corner, or the newest material of exactly
/// its level at its centre.
fn own(which: Summary, sources: &[Source], height: u32, north: u64, east: u64) -> Option<i16>
    requires least { 1 ≤ height }
    requires most { height ≤ 34 }
    requires corner { IsCorner height (record { north = north; east = east }) }
    ensures { result ≡ own_of which (map sampled sources.now) height (record { north = north; east = east }) }
{
    match which {
        Summary::Least | Summary::Greatest => elevation(sources, height, north, east),
        Summary::MostFrequent => own_material(sources, height, north, east),
    }
}

/// The summary of a cell's own value and those of its four finer cells.
fn combine(which: Summary, own: Option<i16>, four: &Four) -> Option<i16>
    ensures { result ≡ combined which own four.now }
{
    match which {
        Summary::Least => {
            let south = lesser(four.south_west, four.south_east);
            let north = lesser(four.north_west, four.north_east);
            lesser(own, lesser(south, north))
        }
        Summary::Greatest => {
            let south = greater(four.south_west, four.south_east);
            let north = greater(four.north_west, four.north_east);
            greater(own, greater(south, north))
        }
        Summary::MostFrequent => mode(four).or(own),
    }
}

/// The summary of the cell of a height at a corner. Where no source reaches the cell there is none.
fn summary_of(which: Summary, sources: &[Source], height: u32, north: u64, east: u64) -> Option<i16>
    requires most { height ≤ 34 }
    requires corner { IsCorner height (record { north = north; east = east }) }
    ensures { result ≡ summary_of which (map sampled sources.now) height (record { north = north; east = east }) }
{
    if height == 0 {
        return None;
    }
    if !is_cell_reached(kind(which), sources, height, north, east) {
        return None;
    }
    let finer = height - 1;
    let up = north + step(finer);
    let right = east + width(north) * step(finer);
    let south_west = summary_of(which, sources, finer, north, east);
    let south_east = summary_of(which, sources, finer, north, right);
    let north_west = summary_of(which, sources, finer, up, east);
    let north_east = summary_of(which, sources, finer, up, right);
    let own = own(which, sources, height, north, east);
    let four = Four {
        south_west,
        south_east,
        north_west,
        north_east,
    };
    combine(which, own, &four)
}

/// The value of the cell of a height at a corner.
pub(crate) fn value(
    family: Family,
    sources: &[Source],
    height: u32,
    north: u64,
    east: u64,
) -> Option<i16>
    requires most { height ≤ 34 }
    requires corner { IsCorner height (record { north = north; east = east }) }
    ensures { result ≡ family_value family sources.now height (record { north = north; east = east }) }
{
    match family {
        Family::Elev => elevation(sources, height, north, east),
        Family::Low => summary_of(Summary::Least, sources, height, north, east),
        Family::High => summary_of(Summary::Greatest, sources, height, north, east),
        Family::Mat => summary_of(Summary::MostFrequent, sources, height, north, east),
    }
}
