//! The value of a source at a place.
ghost use Rattle.std.specs.Prelude.{◌≡◌, ◌≤◌};
ghost use Rattle.cdb_source.specs.Sample.{sample_at, sample_of};

use crate::average::mean_of_four;
use crate::raster::{is_inside, post};
use cdb_grid::units::{east_of, north_of};
use cdb_grid::{Arc, TO_POLE, TO_WEST};
use cdb_source::{Kind, Source};

/// What a source has at a latitude and a longitude.
///
/// For elevation, in whole metres, it is the mean of the four posts around the point, each weighted
/// by the rectangle between the point and the post opposite, rounded to the nearest whole number, a
/// half upward. For material it is the index of the cell that covers the point.
///
/// None outside the source's box, and where a post of nonzero weight, or the cell, has no value.
pub fn sample(source: &Source, lat: Arc, lon: Arc) -> Option<i16>
    ensures { result ≡ sample_of source.now lat lon }
{
    if lat.units < -TO_POLE || lon.units < -TO_WEST {
        return None;
    }
    sample_at(source, north_of(lat), east_of(lon))
}

/// The same at so many arc units north of the south pole and east of the meridian of -180 degrees.
#[tactic(auto, unfolding(cdb_source::specs::Sample::sample_at))]
pub fn sample_at(source: &Source, north: u64, east: u64) -> Option<i16>
    ensures { result ≡ sample_at source.now (record { north = north; east = east }) }
{
    if !is_inside(&source.head, north, east) {
        return None;
    }
    let up = north - source.head.south();
    let right = east - source.head.west();
    match source.head.kind {
        Kind::Elevation => mean_of_four(source, up, right),
        Kind::Material => post(
            source,
            up / source.head.row_step(),
            right / source.head.column_step(),
        ),
    }
}
