/// A family of tiles: elevations, the least and the greatest elevations of each element, and
/// materials (OGC CDB 1.2 Volume 1, tiled raster datasets).
#[derive(Clone, Copy, Debug, PartialEq, Eq, PartialOrd, Ord)]
pub enum Family {
    /// The elevation at each element, in whole metres: dataset 001, elevation.
    Elev,
    /// The least elevation of each element, in whole metres: dataset 002, least and greatest
    /// elevations.
    Low,
    /// The greatest elevation of each element, in whole metres: dataset 002 as well.
    High,
    /// The material of each element, an index from 1 to 255: dataset 005, raster material.
    Mat,
}
