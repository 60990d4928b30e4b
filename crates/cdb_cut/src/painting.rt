//! Paints a source into the frame of a tile.
ghost use Rattle.std.specs.Prelude.{◌≡◌, ℕ, ◌+◌, ◌-◌, ◌*◌, ◌/◌, ◌%◌, ◌^◌, ◌≤◌, ◌<◌, nat_le, IsTrue, IfSome, length, take, drop};
ghost use Rattle.std.proofs.Props.{props};
ghost use Rattle.cdb_grid.specs.Frames.{IsRowChanged};
ghost use Rattle.cdb_source.specs.declared.kind.Kind.TheVariants.{Elevation, Material};
ghost use Rattle.cdb_grid.specs.Tiles.{tile_side};
ghost use Rattle.cdb_source.specs.declared.source.Source as sources;
ghost use Rattle.cdb_cut.specs.Painted.{painted_rule, IsCovered, Stand};
ghost use Rattle.cdb_cut.specs.inside.Painted.{mean_rule};
ghost use Rattle.cdb_cut.specs.Window.{LooksAt, IsWindow, rows_of};
ghost use Rattle.cdb_cut.specs.OneTile.{IsPainted};

use crate::blend::{Between, Narrow, Shift, Wide};
use crate::paint_rows::{cell_row, mean_row};
use crate::source_rows::Rows;
use crate::tile_part::part_of;
use crate::walk::{Axis, Columns};
use cdb_grid::{RowRule, Spot, Tile, change_part, side};
use cdb_source::{Kind, SourceHead};

/// The most columns of a tile.
const MOST: usize = 1024;

/// A window of a source, and how the places of a tile stand in it.
#[derive(Clone, Copy)]
pub(crate) struct Painted<'a> {
    pub kind: Kind,
    pub posts: &'a [i16],
    pub first: u64,
    pub cols: usize,
    pub lat: Axis,
    pub lon: Axis,
    pub column_posts: &'a [usize],
    pub column_parts: &'a [u64],
    pub narrow: bool,
    pub exponent: Option<u32>,
    pub ghost fits: { IsTrue narrow → lat.step * lon.step ≤ 2 ^ 46 },
    pub ghost power: { IfSome exponent (λ n. (lat.step * lon.step ≤ 2 ^ 46) ×
        ((n < 64) × (2 * (lat.step * lon.step) ≡ 2 ^ n))) } by { Prim.hlevel props },
}

impl Painted<'_> {
    /// A row of the source that is in the window.
    fn source_row(&self, row: u64) -> &[i16]
        requires from { self.now.first ≤ row }
        requires within { (row - self.now.first + 1) * self.now.cols ≤ length self.now.posts.now }
        requires small { row < 2 ^ 62 }
        ensures { result.now ≡ take self.now.cols (drop ((row - self.now.first) * self.now.cols) self.now.posts.now) }
    {
        let from = (row - self.first) as usize * self.cols;
        &self.posts[from..from + self.cols]
    }

    /// Writes the means of a row whose places stand so far above a row of posts, in the way that serves for
    /// the steps.
    fn means(&self, above: u64, low: &[i16], high: &[i16], part: &mut [i16])
        requires above { above < self.now.lat.step }
        requires width { length part.old ≤ 1024 }
        requires stand { let lon = self.now.lon in Stand lon.start lon.stride lon.step (length part.old)
            self.now.column_posts.now self.now.column_parts.now }
        requires high { length high.now ≡ length low.now }
        requires flat { above ≡ 0 → high.now ≡ low.now }
        requires within { (c col : ℕ) → c < length part.old → LooksAt Elevation self.now.lon.step
            (self.now.lon.start + c * self.now.lon.stride) col → col < length low.now }
        ensures { let lon = self.now.lon in IsRowChanged (mean_rule self.now.lat.step lon.step above lon.start
            lon.stride low.now high.now) (length part.old) part.old part.new }
    {
        let between = Between {
            dlat: self.lat.step,
            dlon: self.lon.step,
            above,
        };
        let columns = Columns {
            axis: self.lon,
            posts: self.column_posts,
            parts: self.column_parts,
        };
        match self.exponent {
            Some(exponent) => mean_row(Shift { exponent }, &between, &columns, low, high, part),
            None => {
                if self.narrow {
                    mean_row(Narrow, &between, &columns, low, high, part)
                } else {
                    mean_row(Wide, &between, &columns, low, high, part)
                }
            }
        }
    }

    fn elevations(&self, row: usize, part: &mut [i16])
        requires stand { let lon = self.now.lon in Stand lon.start lon.stride lon.step (length part.old)
            self.now.column_posts.now self.now.column_parts.now }
        requires covered { let lon = self.now.lon in IsCovered Elevation self.now.posts.now self.now.first
            self.now.cols self.now.lat.step lon.step self.now.lat.start self.now.lat.stride lon.start lon.stride row
            (length part.old) }
        ensures { let lon = self.now.lon in IsRowChanged (painted_rule Elevation self.now.posts.now
            self.now.first self.now.cols self.now.lat.step lon.step self.now.lat.start self.now.lat.stride lon.start
            lon.stride row) (length part.old) part.old part.new }
    {
        let up = self.lat.along(row as u64);
        let low = self.source_row(up.post);
        if up.part == 0 {
            self.means(up.part, low, low, part);
        } else {
            let high = self.source_row(up.post + 1);
            self.means(up.part, low, high, part);
        }
    }

    fn materials(&self, row: usize, part: &mut [i16])
        requires stand { let lon = self.now.lon in Stand lon.start lon.stride lon.step (length part.old)
            self.now.column_posts.now self.now.column_parts.now }
        requires covered { let lon = self.now.lon in IsCovered Material self.now.posts.now self.now.first
            self.now.cols self.now.lat.step lon.step self.now.lat.start self.now.lat.stride lon.start lon.stride row
            (length part.old) }
        ensures { let lon = self.now.lon in IsRowChanged (painted_rule Material self.now.posts.now
            self.now.first self.now.cols self.now.lat.step lon.step self.now.lat.start self.now.lat.stride lon.start
            lon.stride row) (length part.old) part.old part.new }
    {
        let up = self.lat.along(row as u64);
        let columns = Columns {
            axis: self.lon,
            posts: self.column_posts,
            parts: self.column_parts,
        };
        cell_row(&columns, self.source_row(up.post), part);
    }
}

impl RowRule for Painted<'_> {
    ghost has_row = { λ p row cols. let lon = p.lon in Stand lon.start lon.stride lon.step cols
        p.column_posts.now p.column_parts.now × IsCovered p.kind p.posts.now p.first p.cols p.lat.step lon.step
        p.lat.start p.lat.stride lon.start lon.stride row cols };

    ghost rule = { λ p. painted_rule p.kind p.posts.now p.first p.cols p.lat.step p.lon.step p.lat.start
        p.lat.stride p.lon.start p.lon.stride };

    fn change_row(&self, row: usize, part: &mut [i16]) {
        match self.kind {
            Kind::Elevation => self.elevations(row, part),
            Kind::Material => self.materials(row, part),
        }
    }
}

/// Whether the products of a mean over these steps fit 64 bits.
fn is_narrow(dlat: u64, dlon: u64) -> bool
    requires dlat { dlat ≤ 417470821171200 }
    requires dlon { dlon ≤ 417470821171200 }
    ensures exactly { result ≡ nat_le (dlat * dlon) (2 ^ 46) }
    ensures fits { IsTrue result → dlat * dlon ≤ 2 ^ 46 }
{
    dlat as u128 * dlon as u128 <= 1 << 46
}

/// The exponent of a power of two. `None` says nothing of the number: the quotient is then no shift.
fn exponent_of(number: u64) -> Option<u32>
    ensures { IfSome result (λ n. (n < 64) × (number ≡ 2 ^ n)) }
{
    let exponent = number.trailing_zeros();
    if exponent >= 64 {
        return None;
    }
    if 1 << exponent == number {
        Some(exponent)
    } else {
        None
    }
}

/// The exponent of twice the product of two steps, where that is a power of two and fits 64 bits.
fn exponent_of_steps(dlat: u64, dlon: u64, narrow: bool) -> Option<u32>
    requires { IsTrue narrow → dlat * dlon ≤ 2 ^ 46 }
    ensures { IfSome result (λ n. (dlat * dlon ≤ 2 ^ 46) × ((n < 64) × (2 * (dlat * dlon) ≡ 2 ^ n))) }
{
    if !narrow {
        return None;
    }
    exponent_of(2 * (dlat * dlon))
}

/// Writes the sample of a source at each place of a tile where the frame has no value and the source
/// has one, and nothing else.
///
/// `rows` is the source's window for the tile, `posts` are the posts of these rows, and `frame` is the
/// tile's. -32768 stands for no elevation, and 0 for no material.
pub fn paint(head: &SourceHead, rows: Rows, posts: &[i16], tile: &Tile, frame: &mut [i16])
    requires window { IsWindow head.now tile.now rows.first rows.count }
    requires posts { length posts.now ≡ rows.count * head.now.cols }
    requires frame { length frame.old ≡ tile_side tile.now * tile_side tile.now }
    ensures size { length frame.new ≡ length frame.old }
    ensures painted { (s : sources.Source) → s.head ≡ head.now → posts.now ≡ rows_of s rows.first rows.count →
        IsPainted s tile.now frame.old frame.new }
{
    let part = part_of(head, rows, tile);
    let side = side(tile.level) as usize;
    let width = (part.cols.end - part.cols.first) as usize;
    let (mut column_posts, mut column_parts) = ([0; MOST], [0; MOST]);
    part.lon.stand(width, &mut column_posts, &mut column_parts);
    let narrow = is_narrow(part.lat.step, part.lon.step);
    let painted = Painted {
        kind: head.kind,
        posts,
        first: rows.first as u64,
        cols: head.cols as usize,
        lat: part.lat,
        lon: part.lon,
        column_posts: &column_posts,
        column_parts: &column_parts,
        narrow,
        exponent: exponent_of_steps(part.lat.step, part.lon.step, narrow),
    };
    let spot = Spot {
        row: part.rows.first as u32,
        col: part.cols.first as u32,
    };
    let height = (part.rows.end - part.rows.first) as usize;
    change_part(&painted, spot, height, width, frame, side);
}
