//! The head of a source that is drawn.
ghost use Rattle.std.specs.Prelude.{◌≡◌, ◌+◌, ◌*◌, ◌%◌, ◌≤◌, pos, ◌+ℤ◌};
ghost use Rattle.cdb_grid.specs.Units.{degree, height_of, step};
ghost use Rattle.cdb_generate.specs.Generator.{state_after_draws, kind_drawn, HeadDrawn};

use crate::draws::draw;
use cdb_grid::units::{height, step};
use cdb_grid::{Arc, DEGREE, Level};
use cdb_source::{Kind, SourceHead};

fn kind_of(number: u64) -> Kind
    ensures { result ≡ kind_drawn number }
{
    if number % 4 == 3 {
        Kind::Material
    } else {
        Kind::Elevation
    }
}

/// A level from -6 to 1.
fn level_of(number: u64) -> Level
    ensures { result.number +ℤ pos 6 ≡ pos (number % 8) }
{
    Level {
        number: (number % 8) as i8 - 6,
    }
}

fn degrees(count: u64) -> Arc
    requires { count ≤ 360 }
    ensures { result.units ≡ pos (count * degree) }
{
    Arc {
        units: (count * DEGREE) as i64,
    }
}

/// The step of a level in latitude.
fn step_of(level: Level) -> Arc
    ensures { result.units ≡ pos (step (height_of level.number)) }
{
    Arc {
        units: step(height(level)) as i64,
    }
}

/// The head of the next source.
pub(crate) fn draw_head(state: &mut u64) -> SourceHead
    ensures head { HeadDrawn state.old result }
    ensures state { state.new ≡ state_after_draws 6 state.old }
{
    let kind = kind_of(draw(state));
    let level = level_of(draw(state));
    let lat = degrees(40 + draw(state) % 12);
    let lon = degrees(draw(state) % 20);
    let rows = 1 + (draw(state) % 64) as u32;
    let cols = 1 + (draw(state) % 64) as u32;
    let step = step_of(level);
    SourceHead {
        kind,
        level,
        lat,
        lon,
        dlat: step,
        dlon: step,
        rows,
        cols,
    }
}
