//! The file of a finer tile, folded into the frame of a coarser one.
ghost use Rattle.std.specs.Prelude.{◌≡◌, ◌+◌, ◌*◌, ◌/◌, ◌%◌, ◌≤◌, ◌==◌, ◌||◌, IsTrue, length};
ghost use Rattle.cdb_grid.specs.Frames.{IsRowChanged, IsPartChanged, four_under};
ghost use Rattle.cdb_tiff_write.specs.Samples.{frame_in};
ghost use Rattle.cdb_tiff_write.specs.inside.Finer.{HasFinerRows, four_in_rows};
ghost use Rattle.cdb_model.specs.declared.limits.TheConstants.{TILE_HEAD_BYTES};

use crate::samples::read_row;
use cdb_grid::{FourRule, RowRule, Spot, change_part};

/// The file of a finer tile, under the numbers of a coarser one.
#[derive(Drop)]
struct FinerFile<'a, F> {
    rule: &'a F,
    bytes: &'a [u8],
    side: usize,
    bits: u8,
    ghost known: { IsTrue (bits == 8 || bits == 16) },
}

/// Folds two rows of a finer tile into the row above them.
fn fold_row<F: FourRule>(rule: &F, south: &[i16], north: &[i16], part: &mut [i16])
    requires south { 2 * length part.old ≤ length south.now }
    requires north { 2 * length part.old ≤ length north.now }
    ensures { IsRowChanged (four_in_rows F.of_four south.now north.now) (length part.old) part.old part.new }
{
    for k in 0..part.len() {
        part[k] = rule.of_four(
            part[k],
            south[2 * k],
            south[2 * k + 1],
            north[2 * k],
            north[2 * k + 1],
        );
    }
}

/// Reads the two rows under this one, for which there is room, and folds them into it. Numbers that
/// stand in a row of their own are faster to fold than the bytes.
fn fold_two_rows<F: FourRule>(
    finer: &FinerFile<'_, F>,
    row: usize,
    south: &mut [i16],
    north: &mut [i16],
    part: &mut [i16],
)
    requires rows { HasFinerRows finer.now.bytes.now finer.now.side finer.now.bits row (length part.old) }
    requires south { length south.old ≡ 1024 }
    requires north { length north.old ≡ 1024 }
    ensures { IsRowChanged (four_under F.of_four (frame_in finer.now.bits finer.now.bytes.now finer.now.side)
        finer.now.side row) (length part.old) part.old part.new }
{
    let side = finer.side;
    let south = &mut south[..side];
    let north = &mut north[..side];
    read_row(finer.bytes, finer.bits, (side - 1 - 2 * row) * side, south);
    read_row(finer.bytes, finer.bits, (side - 2 - 2 * row) * side, north);
    fold_row(finer.rule, south, north, part);
}

impl<F: FourRule> RowRule for FinerFile<'_, F> {
    ghost has_row = { λ finer row cols. HasFinerRows finer.bytes.now finer.side finer.bits row cols };

    ghost rule = { λ finer. four_under F.of_four (frame_in finer.bits finer.bytes.now finer.side) finer.side };

    fn change_row(&self, row: usize, part: &mut [i16]) {
        let mut south = [0; 1024];
        let mut north = [0; 1024];
        fold_two_rows(self, row, &mut south, &mut north, part);
    }
}

/// Folds the file of a finer tile into its part of a coarser one: each number of the part becomes what
/// the rule makes of it and of the four samples under it. All else in the frame stays. The head of the
/// file isn't looked at. `side` is the number of the finer tile's elements along one side, and `bits` is
/// 16 for signed elements and 8 for elements without a sign.
pub fn fold_file<F: FourRule>(
    rule: &F,
    bytes: &[u8],
    side: u32,
    bits: u8,
    spot: Spot,
    frame: &mut [i16],
    frame_side: u32,
)
    requires bits { IsTrue (bits == 8 || bits == 16) }
    requires even { side % 2 ≡ 0 }
    requires side { side ≤ 1024 }
    requires bytes { length bytes.now ≡ TILE_HEAD_BYTES + side * side * (bits / 8) }
    requires square { length frame.old ≡ frame_side * frame_side }
    requires row_fits { spot.row + side / 2 ≤ frame_side }
    requires col_fits { spot.col + side / 2 ≤ frame_side }
    ensures { IsPartChanged (four_under F.of_four (frame_in bits bytes.now side) side) spot.row spot.col (side / 2)
        (side / 2) frame_side frame.old frame.new }
{
    let half = side as usize / 2;
    let finer = FinerFile {
        rule,
        bytes,
        side: side as usize,
        bits,
    };
    change_part(&finer, spot, half, half, frame, frame_side as usize);
}
