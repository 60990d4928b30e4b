ghost use Rattle.std.specs.Prelude.{◌≡◌, ℕ, IfOk, IfErr};
ghost use Rattle.cdb_grid.specs.declared.tile.Tile.{Tile};
ghost use Rattle.cdb_model.specs.declared.line.Line.TheVariants as line;
ghost use Rattle.cdb_model.specs.Names.{name};
ghost use Rattle.cdb_model.specs.Grammar.{line_of, sentence_in, tile, IsRefused};
ghost use Rattle.cdb_model.specs.Writing.{IsSentence};
ghost use Rattle.cdb_commands.specs.Meaning.{parsed_in};

use crate::parsed::{Parsed, parse};
use cdb_model::{Line, LineError};
use cdb_names::read_name;

/// What a line says, by its bytes without the line feed that ends it. It takes no memory.
///
/// `LineError::Syntax` where the line isn't of the grammar, and `LineError::Name` where it asks for
/// a tile by a file name that isn't one (OGC CDB 1.2 Volume 1, tile naming).
pub fn read_line(bytes: &[u8]) -> Result<Line, LineError>
    ensures said { IfOk result (λ l. line_of bytes.now ≡ Some (sentence_in l)) }
    ensures named { (id : ℕ) (t : Tile) → line_of bytes.now ≡ Some (tile id (name t)) → result ≡ Ok (line.Tile id t) }
    ensures formed { IfOk result (λ l. IsSentence (sentence_in l)) }
    ensures refused { IfErr result (λ e. IsRefused e bytes.now) }
{
    match parse(bytes) {
        None => Err(LineError::Syntax),
        Some(Parsed::Whole(line)) => Ok(line),
        Some(Parsed::Named(id, file)) => match read_name(file) {
            Ok(tile) => Ok(Line::Tile(id, tile)),
            Err(error) => Err(LineError::Name { place: error.place }),
        },
    }
}
