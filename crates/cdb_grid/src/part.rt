//! Frames: numbers row after row, the south row first, and the change of a part of a frame.
ghost use Rattle.std.specs.Prelude.{◌≡◌, ℕ, ◌+◌, ◌*◌, ◌/◌, ◌%◌, ◌<◌, ◌≤◌, ℤ, length};
ghost use Rattle.cdb_grid.specs.Frames.{IsRowChanged, IsPartChanged, HasTwoRows, four_under};

use crate::spot::Spot;

/// What the rows of a part of a frame become.
pub trait RowRule {
    ghost has_row: { Self → ℕ → ℕ → Type 0 };

    ghost rule: { Self → ℕ → ℕ → ℤ → ℤ };

    /// Changes one row of the part, counted from the part's south row.
    fn change_row(&self, row: usize, part: &mut [i16])
        requires { has_row self.now row (length part.old) }
        ensures { IsRowChanged (rule self.now row) (length part.old) part.old part.new };
}

/// Changes the part of a square frame that begins at a spot and has so many rows and columns, and
/// nothing else of it.
pub fn change_part<R: RowRule>(
    rule: &R,
    spot: Spot,
    rows: usize,
    cols: usize,
    frame: &mut [i16],
    side: usize,
)
    requires has { (r : ℕ) → r < rows → R.has_row rule.now r cols }
    requires square { length frame.old ≡ side * side }
    requires row_fits { spot.row + rows ≤ side }
    requires col_fits { spot.col + cols ≤ side }
    ensures { IsPartChanged (R.rule rule.now) spot.row spot.col rows cols side frame.old frame.new }
{
    for r in 0..rows {
        let from = (spot.row as usize + r) * side + spot.col as usize;
        rule.change_row(r, &mut frame[from..from + cols]);
    }
}

/// What a number of a frame becomes by the four numbers of the next finer level that stand under it.
pub trait FourRule {
    ghost of_four: { ℤ → ℤ → ℤ → ℤ → ℤ → ℤ };

    /// The number of a cell from its own and those of its south-west, south-east, north-west and
    /// north-east quarter.
    fn of_four(
        &self,
        own: i16,
        south_west: i16,
        south_east: i16,
        north_west: i16,
        north_east: i16,
    ) -> i16
        ensures { result ≡ of_four own south_west south_east north_west north_east };
}

/// The numbers of a finer tile, under those of a coarser one.
#[derive(Drop)]
struct Finer<'a, F> {
    rule: &'a F,
    child: &'a [i16],
    side: usize,
}

impl<F: FourRule> RowRule for Finer<'_, F> {
    ghost has_row = { λ finer row cols. HasTwoRows finer.child.now finer.side row cols };

    ghost rule = { λ finer. four_under F.of_four finer.child.now finer.side };

    fn change_row(&self, row: usize, part: &mut [i16]) {
        let south = &self.child[2 * row * self.side..2 * row * self.side + self.side];
        let north = &self.child[(2 * row + 1) * self.side..(2 * row + 1) * self.side + self.side];
        for k in 0..part.len() {
            part[k] = self.rule.of_four(
                part[k],
                south[2 * k],
                south[2 * k + 1],
                north[2 * k],
                north[2 * k + 1],
            );
        }
    }
}

/// Folds a finer tile into its part of a coarser one: each number of the part becomes what the rule
/// makes of it and of the four numbers under it. All else in the frame stays.
pub fn fold_four<F: FourRule>(
    rule: &F,
    child: &[i16],
    child_side: u32,
    spot: Spot,
    frame: &mut [i16],
    frame_side: u32,
)
    requires even { child_side % 2 ≡ 0 }
    requires child { length child.now ≡ child_side * child_side }
    requires square { length frame.old ≡ frame_side * frame_side }
    requires row_fits { spot.row + child_side / 2 ≤ frame_side }
    requires col_fits { spot.col + child_side / 2 ≤ frame_side }
    ensures { IsPartChanged (four_under F.of_four child.now child_side) spot.row spot.col (child_side / 2)
        (child_side / 2) frame_side frame.old frame.new }
{
    let half = child_side as usize / 2;
    let finer = Finer {
        rule,
        child,
        side: child_side as usize,
    };
    change_part(&finer, spot, half, half, frame, frame_side as usize);
}
