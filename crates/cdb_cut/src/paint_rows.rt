//! One row of a tile from the rows of posts around it.
ghost use Rattle.std.specs.Prelude.{◌≡◌, ℕ, ◌+◌, ◌-◌, ◌*◌, ◌/◌, ◌%◌, ◌^◌, ◌≤◌, ◌<◌, length};
ghost use Rattle.std.specs.Option.{option_or};
ghost use Rattle.cdb_grid.specs.Frames.{IsRowChanged};
ghost use Rattle.cdb_source.specs.declared.kind.Kind.TheVariants.{Elevation, Material};
ghost use Rattle.cdb_source.specs.Posts.{coded};
ghost use Rattle.cdb_source.specs.Sample.{value_of};
ghost use Rattle.cdb_cut.specs.Window.{LooksAt};
ghost use Rattle.cdb_cut.specs.Painted.{Stand};
ghost use Rattle.cdb_cut.specs.inside.Painted.{mean_rule, cell_rule};

use crate::blend::{Between, FourMean, or_mean};
use crate::walk::{Columns, post_beyond};

/// Writes the means at the places of a row where the frame has no value. There is one loop for each way
/// to take a mean, so that none asks for it at each place.
pub(crate) fn mean_row<M: FourMean + Copy>(
    way: M,
    at: &Between,
    columns: &Columns,
    low: &[i16],
    high: &[i16],
    part: &mut [i16],
)
    requires serves { M.serves way (at.now.dlat * at.now.dlon) }
    requires width { length part.old ≤ 1024 }
    requires step { at.now.dlon ≡ columns.now.axis.step }
    requires stand { Stand columns.now.axis.start columns.now.axis.stride columns.now.axis.step (length part.old)
        columns.now.posts.now columns.now.parts.now }
    requires high { length high.now ≡ length low.now }
    requires flat { at.now.above ≡ 0 → high.now ≡ low.now }
    requires within { (c col : ℕ) → c < length part.old → LooksAt Elevation columns.now.axis.step
        (columns.now.axis.start + c * columns.now.axis.stride) col → col < length low.now }
    ensures { IsRowChanged (mean_rule at.now.dlat columns.now.axis.step at.now.above columns.now.axis.start
        columns.now.axis.stride low.now high.now) (length part.old) part.old part.new }
{
    // copies, which no write to the row can change
    let (between, columns) = (*at, *columns);
    for k in 0..part.len() {
        let west = columns.posts[k];
        let beyond = columns.parts[k];
        let east = post_beyond(west, beyond);
        part[k] = or_mean(
            &way, part[k], &between, beyond, low[west], low[east], high[west], high[east],
        );
    }
}

/// The number of a frame: as it was where it has a value, else the post.
fn or_post(old: i16, post: i16) -> i16
    ensures { result ≡ coded Material (option_or (value_of Material old) (value_of Material post)) }
{
    if old == 0 { post } else { old }
}

/// Writes the materials at the places of a row where the frame has none.
pub(crate) fn cell_row(columns: &Columns, row: &[i16], part: &mut [i16])
    requires width { length part.old ≤ 1024 }
    requires stand { Stand columns.now.axis.start columns.now.axis.stride columns.now.axis.step (length part.old)
        columns.now.posts.now columns.now.parts.now }
    requires within { (c col : ℕ) → c < length part.old → LooksAt Material columns.now.axis.step
        (columns.now.axis.start + c * columns.now.axis.stride) col → col < length row.now }
    ensures { IsRowChanged (cell_rule columns.now.axis.step columns.now.axis.start columns.now.axis.stride row.now)
        (length part.old) part.old part.new }
{
    let posts = columns.posts;
    for k in 0..part.len() {
        part[k] = or_post(part[k], row[posts[k]]);
    }
}
