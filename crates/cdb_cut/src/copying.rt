//! A part of a frame, copied from another one.
ghost use Rattle.std.specs.Prelude.{◌≡◌, ◌+◌, ◌*◌, ◌<◌, ◌≤◌, length};
ghost use Rattle.cdb_grid.specs.Frames.{number_at, IsPartChanged};
ghost use Rattle.cdb_cut.specs.inside.Copied.{HasPart};

use cdb_grid::{RowRule, Spot, change_part};

/// A part of a frame, from a spot on.
#[derive(Clone, Copy)]
struct Part<'a> {
    from: &'a [i16],
    spot: Spot,
    frame_side: usize,
}

impl RowRule for Part<'_> {
    ghost has_row = { λ p row cols. HasPart p.from.now p.frame_side p.spot.row p.spot.col row cols };

    ghost rule = { λ p row col old. number_at p.from.now p.frame_side (p.spot.row + row) (p.spot.col + col) };

    fn change_row(&self, row: usize, part: &mut [i16]) {
        let at = (self.spot.row as usize + row) * self.frame_side + self.spot.col as usize;
        part.copy_from_slice(&self.from[at..at + part.len()]);
    }
}

/// Copies a part of a frame into the same part of another that has as many rows. `side` is the number of
/// the part's rows and columns, and `frame_side` that of the frames'.
pub fn copy_part(from: &[i16], spot: Spot, side: u32, frame: &mut [i16], frame_side: u32)
    requires from { length from.now ≡ frame_side * frame_side }
    requires frame { length frame.old ≡ frame_side * frame_side }
    requires row_fits { spot.row + side ≤ frame_side }
    requires col_fits { spot.col + side ≤ frame_side }
    ensures { IsPartChanged (λ row col old. number_at from.now frame_side (spot.row + row) (spot.col + col))
        spot.row spot.col side side frame_side frame.old frame.new }
{
    let part = Part {
        from,
        spot,
        frame_side: frame_side as usize,
    };
    change_part(
        &part,
        spot,
        side as usize,
        side as usize,
        frame,
        frame_side as usize,
    );
}
