//! The checks of the header of a file, and the first directory, to which the header points.
ghost use Rattle.std.specs.Prelude.{◌≡◌, ◌+◌, ◌^◌, ◌<◌, ◌≤◌, length, None, Some, IfErr, IfOk, OnOk};
ghost use Rattle.cdb_tiff_base.specs.Causes.{applies, bad_directory, big_tiff, is_big_tiff, is_tiff, not_tiff};
ghost use Rattle.cdb_tiff_base.specs.Directory.{directory, entry_count, order_of};
ghost use Rattle.cdb_tiff_read.specs.Found.{IsDirectory, pass};

use crate::directory::Directory;
use cdb_tiff_base::{Order, TiffCause, TiffError, read_u16, read_u32};

/// Fails with the cause and its place where the test holds.
pub fn refuse_if(test: bool, cause: TiffCause, at: u32) -> Result<(), TiffError>
    ensures { result ≡ pass (applies test cause at) }
{
    if test {
        return Err(TiffError {
            cause,
            at: u64::from(at),
        });
    }
    Ok(())
}

fn has_tiff_header(bytes: &[u8]) -> bool
    ensures { result ≡ is_tiff bytes.now }
{
    bytes.starts_with(b"II\x2a\x00") || bytes.starts_with(b"MM\x00\x2a")
}

fn has_big_tiff_header(bytes: &[u8]) -> bool
    ensures { result ≡ is_big_tiff bytes.now }
{
    bytes.starts_with(b"II\x2b\x00") || bytes.starts_with(b"MM\x00\x2b")
}

/// The file has a header of 8 bytes.
#[tactic(auto, unfolding(cdb_tiff_base::specs::Causes::not_tiff))]
pub fn check_header(bytes: &[u8]) -> Result<(), TiffError>
    ensures row { result ≡ pass (not_tiff bytes.now) }
    ensures long { OnOk result (8 ≤ length bytes.now) }
{
    let known = has_tiff_header(bytes) || has_big_tiff_header(bytes);
    refuse_if(bytes.len() < 8 || !known, TiffCause::NotTiff, 0)
}

/// The header isn't that of a BigTIFF file.
#[tactic(auto, unfolding(cdb_tiff_base::specs::Causes::big_tiff))]
pub fn check_version(bytes: &[u8]) -> Result<(), TiffError>
    ensures { result ≡ pass (big_tiff bytes.now) }
{
    refuse_if(has_big_tiff_header(bytes), TiffCause::BigTiff, 2)
}

#[tactic(auto, unfolding(cdb_tiff_base::specs::Directory::order_of))]
fn byte_order(bytes: &[u8]) -> Order
    requires { 8 ≤ length bytes.now }
    ensures { result ≡ order_of bytes.now }
{
    if bytes[0] == b'I' {
        Order::Little
    } else {
        Order::Big
    }
}

/// The place of the first directory.
#[tactic(auto, unfolding(cdb_tiff_base::specs::Directory::directory))]
fn directory_place(bytes: &[u8], order: Order) -> u32
    requires long { 8 ≤ length bytes.now }
    requires order { order ≡ order_of bytes.now }
    ensures { result ≡ directory bytes.now }
{
    read_u32(&bytes[4..], order)
}

/// The number of entries of the directory at this place.
#[tactic(auto, unfolding(cdb_tiff_base::specs::Directory::entry_count))]
fn read_entry_count(bytes: &[u8], order: Order, at: u32) -> u16
    requires order { order ≡ order_of bytes.now }
    requires place { at ≡ directory bytes.now }
    requires within { at + 2 ≤ length bytes.now }
    ensures { result ≡ entry_count bytes.now }
{
    read_u16(&bytes[at as usize..], order)
}

/// The first directory, where it is whole in the file.
#[tactic(auto, unfolding(cdb_tiff_base::specs::Causes::bad_directory))]
pub fn first_directory(bytes: &[u8]) -> Result<Directory, TiffError>
    requires long { 8 ≤ length bytes.now }
    requires few { length bytes.now < 2 ^ 32 }
    ensures row { OnOk result (bad_directory bytes.now ≡ None) }
    ensures found { IfOk result (IsDirectory bytes.now) }
    ensures refused { IfErr result (λ e. bad_directory bytes.now ≡ Some e) }
{
    let cut = TiffError {
        cause: TiffCause::Directory,
        at: 4,
    };
    let order = byte_order(bytes);
    let at = directory_place(bytes, order);
    let first_entry = at as usize + 2;
    if bytes.len() < first_entry {
        return Err(cut);
    }
    let entries = read_entry_count(bytes, order, at);
    if bytes.len() < first_entry + 12 * usize::from(entries) + 4 {
        return Err(cut);
    }
    Ok(Directory { order, at, entries })
}
