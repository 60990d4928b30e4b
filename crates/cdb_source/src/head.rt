ghost use Rattle.cdb_source.specs.Head.{IsHead};

use crate::kind::Kind;
use crate::span::{is_grid, is_latitude, is_longitude, is_step, reach, step_size};
use cdb_grid::{Arc, Level, units};

/// The head of a source: its kind, its level of detail, its south-west corner, the steps between
/// its rows and between its columns in arc units, and how many of each it has.
///
/// A post of elevation in row `r` and column `c`, counted from the south and from the west, stands
/// at `lat + r * dlat`, `lon + c * dlon`, and the box of the source is closed from its first to its
/// last post. A cell of material covers `dlat` by `dlon` from that point, without its north and
/// east edges, and the box is the union of the cells.
#[derive(Clone, Copy, Debug, PartialEq, Eq)]
pub struct SourceHead {
    pub kind: Kind,
    pub level: Level,
    pub lat: Arc,
    pub lon: Arc,
    pub dlat: Arc,
    pub dlon: Arc,
    pub rows: u32,
    pub cols: u32,
    pub ghost in_range: { IsHead kind lat.units lon.units dlat.units dlon.units rows cols },
}

impl SourceHead {
    ghost use Rattle.std.specs.Prelude.{◌≡◌, ◌+◌, ◌*◌, ◌≤◌, MatchOption};
    ghost use Rattle.cdb_grid.specs.Units.{degree};
    ghost use Rattle.cdb_source.specs.Head.{IsHead};
    ghost use Rattle.cdb_source.specs.Made.{HasFields};
    ghost use Rattle.cdb_source.specs.Sample.{corner_of, row_step, column_step, box_height, box_width};

    /// None exactly where a step isn't from 1 arc unit to 12 degrees, rows or columns aren't from 1
    /// to 65,536 or are more than 16,777,216 posts together, or the box doesn't lie within -90 to
    /// 90 and -180 to 180 degrees, ends included.
    pub fn new(
        kind: Kind,
        level: Level,
        lat: Arc,
        lon: Arc,
        dlat: Arc,
        dlon: Arc,
        rows: u32,
        cols: u32,
    ) -> Option<SourceHead>
        ensures { MatchOption result (IsHead kind lat.units lon.units dlat.units dlon.units rows cols → ⊥)
            (λ head. HasFields head kind level lat lon dlat dlon rows cols) }
    {
        if !is_step(dlat) || !is_step(dlon) || !is_grid(rows, cols) {
            return None;
        }
        if !is_latitude(kind, lat, dlat, rows) || !is_longitude(kind, lon, dlon, cols) {
            return None;
        }
        Some(SourceHead {
            kind,
            level,
            lat,
            lon,
            dlat,
            dlon,
            rows,
            cols,
        })
    }

    /// The south edge of the box, where the first row begins, in arc units from the south pole.
    pub fn south(&self) -> u64
        ensures value { result ≡ (corner_of self.now).north }
        ensures most { result ≤ 180 * degree }
    {
        units::north_of(self.lat)
    }

    /// The north edge of the box, in arc units from the south pole: where the last row of posts stands,
    /// or for material where the last row of cells ends.
    pub fn north(&self) -> u64
        ensures value { result ≡ (corner_of self.now).north + box_height self.now }
        ensures most { result ≤ 180 * degree }
    {
        self.south() + reach(self.kind, self.rows, self.row_step()) as u64
    }

    /// The west edge of the box, where the first column begins, in arc units from the meridian of -180
    /// degrees.
    pub fn west(&self) -> u64
        ensures value { result ≡ (corner_of self.now).east }
        ensures most { result ≤ 360 * degree }
    {
        units::east_of(self.lon)
    }

    /// The east edge of the box, in arc units from the meridian of -180 degrees: where the last column of
    /// posts stands, or for material where the last column of cells ends.
    pub fn east(&self) -> u64
        ensures value { result ≡ (corner_of self.now).east + box_width self.now }
        ensures most { result ≤ 360 * degree }
    {
        self.west() + reach(self.kind, self.cols, self.column_step()) as u64
    }

    /// The arc units from one row to the next.
    pub fn row_step(&self) -> u64
        ensures value { result ≡ row_step self.now }
        ensures least { 1 ≤ result }
        ensures most { result ≤ 12 * degree }
    {
        step_size(self.dlat)
    }

    /// The arc units from one column to the next.
    pub fn column_step(&self) -> u64
        ensures value { result ≡ column_step self.now }
        ensures least { 1 ≤ result }
        ensures most { result ≤ 12 * degree }
    {
        step_size(self.dlon)
    }
}
