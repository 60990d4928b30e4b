ghost use Rattle.std.specs.Prelude.{◌≡◌, ◌^◌, ◌<◌, length, None, Some, IfErr, IfOk, OnOk};
ghost use Rattle.cdb_tiff_base.specs.Causes.{cause_of};
ghost use Rattle.cdb_tiff_read.specs.Opened.{IsOpened};

use crate::entries::{check_kinds, check_order, check_tiles};
use crate::fields::{
    check_absent, check_bits, check_compression, check_format, check_samples, check_size, image_of,
};
use crate::header::{check_header, check_version, first_directory};
use crate::image::Image;
use crate::strips::{check_short, check_strips};
use cdb_tiff_base::TiffError;

/// Opens the image of a TIFF file, or fails with the first cause for which the file is refused and the
/// byte that the cause speaks of. The file has fewer than `2^32` bytes. The tags 256 to 259, 266, 273, 277
/// to 279 and 339 are read, and 322 to 325 (tiles) looked for; all other entries are passed over (TIFF 6.0
/// sections 2, 3 and 8).
#[tactic(auto, unfolding(cdb_tiff_base::specs::Causes::cause_of))]
pub fn open(bytes: &[u8]) -> Result<Image, TiffError>
    requires { length bytes.now < 2 ^ 32 }
    ensures accepted { OnOk result (cause_of bytes.now ≡ None) }
    ensures opened { IfOk result (IsOpened bytes.now) }
    ensures refused { IfErr result (λ e. cause_of bytes.now ≡ Some e) }
{
    check_header(bytes)?;
    check_version(bytes)?;
    let d = first_directory(bytes)?;
    check_order(bytes, d)?;
    check_kinds(bytes, d)?;
    check_tiles(bytes, d)?;
    check_absent(bytes, d)?;
    check_compression(bytes, d)?;
    check_samples(bytes, d)?;
    check_format(bytes, d)?;
    check_bits(bytes, d)?;
    check_size(bytes, d)?;
    let image = image_of(bytes, d);
    check_strips(bytes, d, &image)?;
    check_short(bytes, &image)?;
    Ok(image)
}
