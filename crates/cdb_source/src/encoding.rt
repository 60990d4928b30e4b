//! The bytes of a source: its head, and each of its rows.
ghost use Rattle.std.specs.Prelude.{◌≡◌, ◌+◌, ◌*◌, ◌<◌, ◌≤◌, ◌++◌, length, take, drop};
ghost use Rattle.cdb_source.specs.Texts as texts;

use crate::head::SourceHead;
use crate::kind::Kind;
use crate::limits::SOURCE_FRONT_BYTES;
use crate::source::Source;

/// The eight bytes that a source file begins with.
pub const FIRST_BYTES: [u8; 8] = *b"CDBSRC1\n";

fn kind_number(kind: Kind) -> u8
    ensures { result ≡ texts.kind_number kind }
{
    match kind {
        Kind::Elevation => 1,
        Kind::Material => 2,
    }
}

/// Writes a part over the bytes from `at` on.
fn put(to: &mut [u8], at: usize, part: &[u8])
    requires { at + length part.now ≤ length to.old }
    ensures { take (at + length part.now) to.new ≡ take at to.old ++ part.now }
{
    to[at..at + part.len()].copy_from_slice(part);
}

/// The bytes of a source file before its posts: the eight bytes `CDBSRC1` and a line feed, and the 44
/// bytes of the head. All numbers are big endian, and signed ones two's complement.
#[tactic(auto, unfolding(crate::specs::Texts::head_text))]
pub fn encode_head(head: &SourceHead) -> [u8; SOURCE_FRONT_BYTES]
    ensures { result ≡ texts.source_front_text head.now }
{
    let mut bytes = [0; SOURCE_FRONT_BYTES];
    put(&mut bytes, 0, &FIRST_BYTES);
    let kind_and_level = [
        kind_number(head.kind),
        head.level.number.cast_unsigned(),
        0,
        0,
    ];
    put(&mut bytes, 8, &kind_and_level);
    put(&mut bytes, 12, &head.rows.to_be_bytes());
    put(&mut bytes, 16, &head.cols.to_be_bytes());
    put(&mut bytes, 20, &head.lat.units.to_be_bytes());
    put(&mut bytes, 28, &head.lon.units.to_be_bytes());
    put(&mut bytes, 36, &head.dlat.units.to_be_bytes());
    put(&mut bytes, 44, &head.dlon.units.to_be_bytes());
    bytes
}

fn put_posts(posts: &[i16], to: &mut [u8])
    requires { length to.old ≡ 2 * length posts.now }
    ensures { to.new ≡ texts.posts_text posts.now }
{
    for k in 0..posts.len() {
        put(to, 2 * k, &posts[k].to_be_bytes());
    }
}

/// Writes row `r` of the posts, counted from the south, from west to east. In the file it stands at
/// `52 + 2 * r * cols`.
pub fn encode_row(source: &Source, r: u32, to: &mut [u8])
    requires row { r < source.now.head.rows }
    requires room { length to.old ≡ 2 * source.now.head.cols }
    ensures posts { to.new ≡ texts.posts_text (texts.row_of_posts source.now r) }
    ensures part { to.new ≡ take (2 * source.now.head.cols)
        (drop (SOURCE_FRONT_BYTES + 2 * (r * source.now.head.cols)) (texts.source_text source.now)) }
{
    let cols = source.head.cols as usize;
    let from = r as usize * cols;
    put_posts(&source.posts.as_slice()[from..from + cols], to);
}
