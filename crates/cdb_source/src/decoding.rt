//! Sources from the bytes of their files.
ghost use Rattle.std.specs.Prelude.{◌≡◌, ◌+◌, ◌*◌, ◌<◌, ◌≤◌, ◌++◌, ℕ, List, IsTrue, drop, length, All, Some, MatchOption, IfSome, IfOk, IfErr};
ghost use Rattle.cdb_grid.specs.declared.arc.Arc as arcs;
ghost use Rattle.cdb_source.specs.declared.head.SourceHead as heads;
ghost use Rattle.cdb_source.specs.declared.kind.Kind as kinds;
ghost use Rattle.cdb_source.specs.declared.source.Source as sources;
ghost use Rattle.cdb_source.specs.Posts.{IsPost};
ghost use Rattle.cdb_source.specs.Texts.{source_first_bytes, kind_number, source_front_text, post_bytes, posts_text, source_text};
ghost use Rattle.cdb_source.specs.inside.HeadFields.{count_from, units_from, HasHead};
ghost use Rattle.cdb_source.specs.Decoding.{IsBadPost, SourceCause, GivesSource};
ghost use Rattle.cdb_source.specs.inside.Decoding.{ReadsPosts, TellsPost};

use crate::decode_error::DecodeError;
use crate::encoding::FIRST_BYTES;
use crate::head::SourceHead;
use crate::kind::Kind;
use crate::limits::SOURCE_FRONT_BYTES;
use crate::posts::Posts;
use crate::row::is_post;
use crate::source::Source;
use cdb_grid::{Arc, DEGREE, Level};
use std::alloc::Global;

fn begins_right(bytes: &[u8]) -> bool
    ensures begins { IsTrue result → bytes.now ≡ source_first_bytes ++ drop 8 bytes.now }
    ensures only { (rest : List ℕ) → bytes.now ≡ source_first_bytes ++ rest → IsTrue result }
{
    bytes.starts_with(&FIRST_BYTES)
}

fn kind_of(number: u8) -> Option<Kind>
    ensures { MatchOption result ((kind : kinds.Kind) → number ≡ kind_number kind → ⊥)
        (λ kind. number ≡ kind_number kind) }
{
    match number {
        1 => Some(Kind::Elevation),
        2 => Some(Kind::Material),
        _ => None,
    }
}

fn count_at(bytes: &[u8; SOURCE_FRONT_BYTES], at: usize) -> u32
    requires { at + 4 ≤ SOURCE_FRONT_BYTES }
    ensures { result ≡ count_from bytes.now at }
{
    u32::from_be_bytes([bytes[at], bytes[at + 1], bytes[at + 2], bytes[at + 3]])
}

fn units_at(bytes: &[u8; SOURCE_FRONT_BYTES], at: usize) -> i64
    requires { at + 8 ≤ SOURCE_FRONT_BYTES }
    ensures { result ≡ units_from bytes.now at }
{
    i64::from_be_bytes([
        bytes[at],
        bytes[at + 1],
        bytes[at + 2],
        bytes[at + 3],
        bytes[at + 4],
        bytes[at + 5],
        bytes[at + 6],
        bytes[at + 7],
    ])
}

fn arc_at(bytes: &[u8; SOURCE_FRONT_BYTES], at: usize) -> Option<Arc>
    requires { at + 8 ≤ SOURCE_FRONT_BYTES }
    ensures { MatchOption result ((arc : arcs.Arc) → units_from bytes.now at ≡ arc.units → ⊥)
        (λ arc. units_from bytes.now at ≡ arc.units) }
{
    let units = units_at(bytes, at);
    if units < -FULL_CIRCLE || units > FULL_CIRCLE {
        return None;
    }
    Some(Arc { units })
}

/// Arc units of 360 degrees.
const FULL_CIRCLE: i64 = 360 * DEGREE as i64;

fn head_of(bytes: &[u8; SOURCE_FRONT_BYTES]) -> Option<SourceHead>
    ensures { MatchOption result ((head : heads.SourceHead) → HasHead bytes.now head → ⊥)
        (λ head. HasHead bytes.now head) }
{
    if !begins_right(bytes) || bytes[10] != 0 || bytes[11] != 0 {
        return None;
    }
    let Some(kind) = kind_of(bytes[8]) else {
        return None;
    };
    let Some(level) = Level::new(i32::from(bytes[9].cast_signed())) else {
        return None;
    };
    let rows = count_at(bytes, 12);
    let cols = count_at(bytes, 16);
    let Some(lat) = arc_at(bytes, 20) else {
        return None;
    };
    let Some(lon) = arc_at(bytes, 28) else {
        return None;
    };
    let Some(dlat) = arc_at(bytes, 36) else {
        return None;
    };
    let Some(dlon) = arc_at(bytes, 44) else {
        return None;
    };
    SourceHead::new(kind, level, lat, lon, dlat, dlon, rows, cols)
}

/// The head that the first 52 bytes of a source file spell, or `None` exactly where they spell none.
pub fn decode_head(bytes: &[u8; SOURCE_FRONT_BYTES]) -> Option<SourceHead>
    ensures spelled { IfSome result (λ head. bytes.now ≡ source_front_text head) }
    ensures only { (head : heads.SourceHead) → bytes.now ≡ source_front_text head → result ≡ Some head }
{
    head_of(bytes)
}

/// The head before the posts.
fn front(bytes: &[u8]) -> Result<SourceHead, DecodeError>
    ensures head { IfOk result (λ head. bytes.now ≡ source_front_text head ++ drop SOURCE_FRONT_BYTES bytes.now) }
    ensures bad { IfErr result (SourceCause bytes.now) }
{
    if !begins_right(bytes) {
        return Err(DecodeError::Bad { place: 0 });
    }
    let Some(front) = bytes.first_chunk::<SOURCE_FRONT_BYTES>() else {
        return Err(DecodeError::Bad { place: 8 });
    };
    match decode_head(front) {
        Some(head) => Ok(head),
        None => Err(DecodeError::Bad { place: 8 }),
    }
}

fn post_at(text: &[u8], k: usize) -> i16
    requires { 2 * k + 2 ≤ length text.now }
    ensures { drop (2 * k) text.now ≡ post_bytes result ++ drop (2 * k + 2) text.now }
{
    i16::from_be_bytes([text[2 * k], text[2 * k + 1]])
}

/// Fills the posts with those that the text spells, or gives the number of the first one that the
/// kind doesn't allow.
fn read_posts(kind: Kind, text: &[u8], posts: &mut [i16]) -> Option<usize>
    requires { length text.now ≡ 2 * length posts.old }
    ensures { MatchOption result (ReadsPosts kind text.now posts.new)
        (λ k. (k < length posts.old) × IsBadPost kind text.now k) }
{
    for k in 0..posts.len() {
        let post = post_at(text, k);
        if !is_post(kind, i32::from(post)) {
            return Some(k);
        }
        posts[k] = post;
    }
    None
}

fn posts_of(alloc: Global, kind: Kind, text: &[u8], count: usize) -> Result<Vec<i16>, DecodeError>
    requires text { length text.now ≡ 2 * count }
    requires count { count ≤ 16777216 }
    ensures read { IfOk result (λ posts. ReadsPosts kind text.now posts.items × (length posts.items ≡ count)) }
    ensures bad { IfErr result (TellsPost kind text.now count) }
{
    let mut posts = vec![in alloc; 0; count]?;
    match read_posts(kind, text, posts.as_mut_slice()) {
        None => Ok(posts),
        Some(k) => Err(DecodeError::Bad {
            place: SOURCE_FRONT_BYTES as u32 + 2 * k as u32,
        }),
    }
}

/// The three parts in their order: the first bytes and the head, the posts, and nothing more.
fn source_of(alloc: Global, bytes: &[u8]) -> Result<Source, DecodeError>
    ensures spelled { IfOk result (λ source. bytes.now ≡ source_text source) }
    ensures bad { IfErr result (SourceCause bytes.now) }
{
    let head = front(bytes)?;
    let count = head.rows as usize * head.cols as usize;
    let rest = bytes.split_at(SOURCE_FRONT_BYTES).1;
    if rest.len() < 2 * count {
        return Err(DecodeError::Bad {
            place: SOURCE_FRONT_BYTES as u32,
        });
    }
    let (text, after) = rest.split_at(2 * count);
    let posts = posts_of(alloc, head.kind, text, count)?;
    if !after.is_empty() {
        return Err(DecodeError::Bad {
            place: SOURCE_FRONT_BYTES as u32 + 2 * count as u32,
        });
    }
    Ok(Source {
        head,
        posts: Posts::from(posts),
    })
}

/// The source that the bytes of a source file spell. `Bad` exactly where they spell none; its place
/// is where the first part begins that isn't of the form. `Memory` where memory was refused.
pub fn decode(alloc: Global, bytes: &[u8]) -> Result<Source, DecodeError>
    ensures spelled { IfOk result (λ source. bytes.now ≡ source_text source) }
    ensures only { (source : sources.Source) → bytes.now ≡ source_text source → GivesSource source result }
    ensures bad { IfErr result (SourceCause bytes.now) }
{
    source_of(alloc, bytes)
}
