ghost use Rattle.std.specs.Prelude.{◌≡◌, ℤ, pos, negsuc, ◌≤ℤ◌, ◌<◌, ◌≤◌};
ghost use Rattle.cdb_grid.specs.Units.{width_at, row_of};

/// A latitude zone: the geocells of one row are `width` degrees wide, 1 to 12.
#[derive(Clone, Copy, Debug, PartialEq, Eq)]
pub struct Zone {
    pub width: u8,
}

/// The zone of the geocells whose south edge is at `lat` degrees
/// (OGC CDB 1.2 Volume 1, latitude zones).
#[tactic(auto, unfolding(crate::specs::Units::width_at))]
pub fn zone_of(lat: i8) -> Zone
    requires south { negsuc 89 ≤ℤ lat }
    requires north { lat ≤ℤ pos 89 }
    ensures width { result.width ≡ width_at (row_of lat) }
    ensures least { 0 < result.width }
    ensures most { result.width ≤ 12 }
{
    let width = match lat {
        89 => 12,
        80..=88 => 6,
        75..=79 => 4,
        70..=74 => 3,
        50..=69 => 2,
        -50..=49 => 1,
        -70..=-51 => 2,
        -75..=-71 => 3,
        -80..=-76 => 4,
        -89..=-81 => 6,
        _ => 12,
    };
    Zone { width }
}
