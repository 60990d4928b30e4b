ghost use Rattle.std.specs.Prelude.{◌≡◌};
ghost use Rattle.cdb_source.specs.Reached.{kind_of};

use crate::kind::Kind;
use cdb_grid::Family;

/// The kind of sources from which a family of tiles takes its values.
pub fn kind_of(family: Family) -> Kind
    ensures { result ≡ kind_of family }
{
    match family {
        Family::Elev | Family::Low | Family::High => Kind::Elevation,
        Family::Mat => Kind::Material,
    }
}
