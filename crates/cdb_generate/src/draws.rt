//! Numbers that are drawn one after another.
ghost use Rattle.std.specs.Prelude.{◌≡◌, ◌<◌, ◌^◌};
ghost use Rattle.cdb_generate.specs.Generator.{state_after, drawn};

/// The next number of a linear congruential generator of 64 bits: its upper 32 bits.
pub fn draw(state: &mut u64) -> u64
    ensures state { state.new ≡ state_after state.old }
    ensures drawn { result ≡ drawn 1 state.old }
    ensures most { result < 2 ^ 32 }
{
    *state = state
        .wrapping_mul(6_364_136_223_846_793_005)
        .wrapping_add(1_442_695_040_888_963_407);
    *state >> 32
}
