ghost use Rattle.std.specs.Prelude.{ℕ, ◌≡◌, ◌<◌, pos, negsuc};
ghost use Rattle.cdb_grid.specs.Units.{tiles_of, height_of};

use crate::family::Family;
use crate::geocell::Geocell;
use crate::level::Level;
use arrayvec::ArrayVec;
use std::cmp::Ordering;

/// A tile of a geocell at a level: `up` is its row from the south and `right` its column from the
/// west, from 0 (U and R of OGC CDB 1.2 Volume 1, tile naming).
#[derive(Clone, Copy, Debug, PartialEq, Eq)]
pub struct Tile {
    pub family: Family,
    pub cell: Geocell,
    pub level: Level,
    pub up: u32,
    pub right: u32,
    pub ghost up_in_range: { up < tiles_of (height_of level.number) },
    pub ghost right_in_range: { right < tiles_of (height_of level.number) },
}

/// The tiles of the next finer level that a tile splits into.
pub type ChildTiles = ArrayVec<Tile, 4>;

/// The elevation tile of N00E000 at level -10.
impl Default for Tile {
    ghost use Rattle.cdb_grid.specs.Tiles.{IsDefault};

    ghost is_default = { IsDefault };

    fn default() -> Tile {
        let cell = Geocell { lat: 0, lon: 0 };
        Tile {
            family: Family::Elev,
            cell,
            level: Level { number: -10 },
            up: 0,
            right: 0,
        }
    }
}

/// The stated order: by family, then finest level first, then latitude, longitude, row and column,
/// each ascending.
impl Ord for Tile {
    ghost use Rattle.std.specs.Prelude.{refl};
    ghost use Rattle.cdb_grid.specs.Order.{tile_cmp};
    ghost use Rattle.cdb_grid.specs.OrderLaws.{tile_cmp-total, tile_ties};

    ghost cmp = { tile_cmp };

    ghost total = { tile_cmp-total };

    ghost matches_partial_cmp = { λ x y. refl };

    ghost matches_eq = { tile_ties };

    fn cmp(&self, other: &Tile) -> Ordering {
        self.family
            .cmp(&other.family)
            .then(other.level.cmp(&self.level))
            .then(self.cell.cmp(&other.cell))
            .then(self.up.cmp(&other.up))
            .then(self.right.cmp(&other.right))
    }
}

impl PartialOrd for Tile {
    ghost use Rattle.std.specs.Cmp.{partial_order_from_own_ties, partial_order_from_total};
    ghost use Rattle.std.specs.Ordering.{as_partial_cmp};
    ghost use Rattle.cdb_grid.specs.Order.{tile_cmp};
    ghost use Rattle.cdb_grid.specs.OrderLaws.{tile_cmp-total, tile_ties};

    ghost partial_cmp = { as_partial_cmp tile_cmp };

    ghost laws = { partial_order_from_own_ties (partial_order_from_total tile_cmp-total) tile_ties };

    fn partial_cmp(&self, other: &Tile) -> Option<Ordering> {
        Some(self.cmp(other))
    }
}
