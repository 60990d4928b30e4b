//! The division of the globe into latitude zones, geocells, levels of detail and tiles
//! (OGC CDB 1.2 Volume 1, tiling).
#![tactic(auto)]

mod arc;
mod element;
mod family;
mod fraction;
mod geocell;
pub mod laws;
mod level;
mod locate;
mod part;
mod pyramid;
mod spot;
mod tile;
pub mod units;
mod zone;

pub use arc::{Arc, DEGREE, TO_POLE, TO_WEST};
pub use element::{corner, place};
pub use family::Family;
pub use fraction::Fraction;
pub use geocell::Geocell;
pub use level::Level;
pub use locate::{geocell_at, tile_at};
pub use part::{FourRule, RowRule, change_part, fold_four};
pub use pyramid::{children, parent, spot_of};
pub use spot::Spot;
pub use tile::{ChildTiles, Tile};
pub use units::{side, tiles_across};
pub use zone::{Zone, zone_of};
