/// What the posts of a source are: elevations in whole metres, or indices of materials.
#[derive(Clone, Copy, Debug, PartialEq, Eq)]
pub enum Kind {
    Elevation,
    Material,
}

impl Kind {
    ghost use Rattle.std.specs.Prelude.{◌≡◌};
    ghost use Rattle.cdb_source.specs.Posts.{none_of};

    /// The post that stands for no value: -32768 for elevation, and 0 for material.
    pub fn no_value(self) -> i16
        ensures { result ≡ none_of self }
    {
        match self {
            Kind::Elevation => -32768,
            Kind::Material => 0,
        }
    }
}
