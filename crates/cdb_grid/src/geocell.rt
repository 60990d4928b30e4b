ghost use Rattle.std.specs.Prelude.{◌≡◌, ◌%◌, ℤ, pos, negsuc, ◌≤ℤ◌, MatchOption};
ghost use Rattle.cdb_grid.specs.Units.{width_at, row_of, column_of, IsGeocell};

use crate::zone::zone_of;

/// A geocell, named by the whole degrees of its south-west corner. It is one degree high and as
/// wide as its latitude zone says, and it has its south and west edges and not its north and east
/// edges (OGC CDB 1.2 Volume 1, geocells).
#[derive(Clone, Copy, Debug, PartialEq, Eq, PartialOrd, Ord)]
pub struct Geocell {
    pub lat: i8,
    pub lon: i16,
    pub ghost south: { negsuc 89 ≤ℤ lat },
    pub ghost north: { lat ≤ℤ pos 89 },
    pub ghost west: { negsuc 179 ≤ℤ lon },
    pub ghost east: { lon ≤ℤ pos 179 },
    pub ghost on_grid: { column_of lon % width_at (row_of lat) ≡ 0 },
}

impl Geocell {
    /// The geocell whose south-west corner is at so many whole degrees, or `None` where there is none:
    /// south of -90 or north of 89, west of -180 or east of 179, or beside the grid of the latitude's
    /// zone (OGC CDB 1.2 Volume 1, geocells).
    pub fn new(lat: i8, lon: i16) -> Option<Geocell>
        ensures { MatchOption result (IsGeocell lat lon → ⊥) (λ cell. (cell.lat ≡ lat) × (cell.lon ≡ lon)) }
    {
        if lat < -90 || lat > 89 || lon < -180 || lon > 179 {
            return None;
        }
        if column(lon) % u16::from(zone_of(lat).width) != 0 {
            return None;
        }
        Some(Geocell { lat, lon })
    }
}

/// The whole degrees from the meridian of -180 degrees eastward to a longitude.
fn column(lon: i16) -> u16
    requires west { negsuc 179 ≤ℤ lon }
    requires east { lon ≤ℤ pos 179 }
    ensures { result ≡ column_of lon }
{
    (lon + 180) as u16
}
