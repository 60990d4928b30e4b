//! A source of a file of the shelf.
ghost use Rattle.std.specs.Prelude.{◌≡◌, ◌≤◌};
ghost use Rattle.cdb_model.specs.Causes.{Rose};
ghost use Rattle.cdb_model.specs.Grammar.{file_in};
ghost use Rattle.cdb_engine.specs.Loading.{LoadOutcome};

use crate::LoadOrder;
use crate::engine::Engine;
use crate::errors::LoadError;
use crate::file::read_file;
use crate::image_rows::source_of;
use cdb_files::Shelf;
use cdb_source::Source;
use std::alloc::Global;

impl Engine {
    /// Makes the source that an order spells with its file of the shelf, which is read in one
    /// piece, opened as a TIFF file, and given row by row. The errors come in this order: `Shelf`
    /// only where a call of the shelf failed, `Absent` exactly where there is no such file, `Big`
    /// exactly where it has more than 67,108,864 bytes, `Input` exactly where it isn't a TIFF file
    /// that is read, and `Range` exactly where the order spells no source with it. `Memory`: memory
    /// for the bytes of the file or for the posts was refused.
    pub fn load<H: Shelf>(
        &self,
        alloc: Global,
        order: &LoadOrder,
        shelf: &mut H,
    ) -> Result<Source, LoadError>
        ensures loads { LoadOutcome H.tells (H.files shelf.old order.now.path.bytes) (file_in order.now) result }
        ensures files { H.files shelf.new ≡ H.files shelf.old }
        ensures later { H.fault_count shelf.old ≤ H.fault_count shelf.new }
        ensures failed { result ≡ Err LoadError.Shelf → Rose (H.fault_count shelf.old) (H.fault_count shelf.new) }
    {
        let bytes = read_file(alloc, &order.path, shelf)?;
        source_of(alloc, order, &bytes)
    }
}
