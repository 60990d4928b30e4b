//! The raster of a written tile: the north row first, each row from west to east.
ghost use Rattle.std.specs.Prelude.{◌≡◌, ◌+◌, ◌*◌, ◌/◌, ◌≤◌, ◌++◌, ℤ, pos, ◌≤ℤ◌, All, length, drop, map};
ghost use Rattle.cdb_model.specs.Text.{last_first};
ghost use Rattle.cdb_model.specs.TileFile.{bits_of, row_bytes, small_row_bytes};
ghost use Rattle.cdb_tiff_write.specs.Rasters.{octet_of, laid_row, row_of_frame};

use crate::size::bits;
use byteorder::{ByteOrder, LittleEndian};
use cdb_grid::Family;

/// Writes one row of posts from west to east, each in two bytes, the lower byte first (TIFF 6.0 section
/// 8). `to` has twice as many bytes as the row has posts.
#[tactic(auto, unfolding(cdb_model::specs::TileFile::row_bytes))]
pub fn put_row_16(posts: &[i16], to: &mut [u8])
    requires { length to.old ≡ 2 * length posts.now }
    ensures { to.new ≡ row_bytes posts.now }
{
    LittleEndian::write_i16_into(posts, to);
}

/// The byte of a number of a material, and 0 for one that is none.
#[tactic(auto, unfolding(crate::specs::Rasters::octet_of))]
fn octet(post: i16) -> u8
    ensures { result ≡ octet_of post }
{
    if post >= 0 && post <= 255 {
        post as u8
    } else {
        0
    }
}

/// Writes one row of numbers, each in one byte.
fn put_octets(posts: &[i16], to: &mut [u8])
    requires { length to.old ≡ length posts.now }
    ensures { to.new ≡ map octet_of posts.now }
{
    for k in 0..posts.len() {
        to[k] = octet(posts[k]);
    }
}

/// Writes one row of posts of materials, from 0 to 255, from west to east, each in one byte (TIFF 6.0
/// section 8). `to` has as many bytes as the row has posts.
pub fn put_row_8(posts: &[i16], to: &mut [u8])
    requires least { All (λ post. pos 0 ≤ℤ post) posts.now }
    requires greatest { All (λ post. post ≤ℤ pos 255) posts.now }
    requires length { length to.old ≡ length posts.now }
    ensures { to.new ≡ small_row_bytes posts.now }
{
    put_octets(posts, to);
}

/// Writes one row of a frame.
fn put_row(family: Family, posts: &[i16], to: &mut [u8])
    requires { length to.old ≡ length posts.now * (bits_of family / 8) }
    ensures { to.new ≡ laid_row family posts.now }
{
    match family {
        Family::Elev | Family::Low | Family::High => put_row_16(posts, to),
        Family::Mat => put_octets(posts, to),
    }
}

/// Writes one row of a frame from a byte place on.
fn put_row_at(family: Family, posts: &[i16], at: usize, to: &mut [u8])
    requires { at + length posts.now * (bits_of family / 8) ≤ length to.old }
    ensures { drop at to.new ≡ laid_row family posts.now ++ drop (at + length posts.now * (bits_of family / 8)) to.old }
{
    let size = posts.len() * (bits(family) as usize / 8);
    put_row(family, posts, &mut to[at..at + size]);
}

/// Writes the rows of a frame, whose first row is the south row, with the north row first.
pub(crate) fn put_rows(family: Family, side: usize, frame: &[i16], to: &mut [u8])
    requires side { side ≤ 1024 }
    requires frame { length frame.now ≡ side * side }
    requires length { length to.old ≡ side * (side * (bits_of family / 8)) }
    ensures { to.new ≡ last_first side (λ row. laid_row family (row_of_frame side frame.now row)) }
{
    let size = side * (bits(family) as usize / 8);
    for row in 0..side {
        let from = row * side;
        put_row_at(
            family,
            &frame[from..from + side],
            (side - 1 - row) * size,
            to,
        );
    }
}
