ghost use Rattle.std.specs.Prelude.{◌≡◌, ℕ, ℤ, pos, ◌+◌, ◌*◌, ◌<◌, List, None, slice_index_or};
ghost use Rattle.cdb_tiff_base.specs.Causes.{cause_of};
ghost use Rattle.cdb_tiff_base.specs.Pixels.{pixel};
ghost use Rattle.cdb_tiff_base.specs.WrittenTile.{IsShortRaster, written_tile};

/// The law that joins the reader's definitions with the bytes of a written tile of 16 bits: such a file
/// is not refused, and its pixels are the tile's values, north row first and each row from west to east.
/// The function does nothing: its contract is the law.
pub fn written_tile_is_read()
    ensures accepted { (side : ℕ) (values : List ℤ) → IsShortRaster side values
        → cause_of (written_tile side values) ≡ None }
    ensures pixels { (side : ℕ) (values : List ℤ) (r c : ℕ) → IsShortRaster side values → r < side → c < side
        → pixel (written_tile side values) r c ≡ slice_index_or values (r * side + c) (pos 0) }
{}
