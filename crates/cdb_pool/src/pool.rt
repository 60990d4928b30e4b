//! A block of memory that is cut into equal frames, each of which is out or free.
ghost use Rattle.std.specs.Prelude.{◌≡◌, ◌≢◌, ◌≤◌, ◌<◌, ◌+◌, ◌*◌, ◌^◌, ◌⊎◌, take, drop, true, false, length, not};
ghost use Rattle.std.specs.Prelude.{count_by, vec_len, IfOk, IfSome, MatchOption};
ghost use Rattle.std.specs.Borrow.{sem};
ghost use Rattle.std.specs.List.{position};
ghost use Rattle.std.specs.Vec.{vec_follows_range};
ghost use Rattle.cdb_pool.specs.Frames.{contents, IsOut, IsFirstFree, AllOut, IsNew, IsLent, with_out};
ghost use Rattle.cdb_pool.specs.Laws.{FramesAreApart, TakesOther};
ghost use Rattle.cdb_pool.specs.Lending.{lends_frame};
ghost use Rattle.cdb_pool.specs.inside.Windows.{lends_part};

use crate::frame::Frame;
use std::alloc::{AllocError, Allocator, Global};
use std::marker::Model;
use std::slice::{from_raw_parts, from_raw_parts_mut};

/// Equal frames of one block of memory. Contracts see the block, the length of a frame, and for each
/// frame whether it is out.
#[derive(Drop)]
pub struct Pool<T: Copy> {
    block: Vec<T>,
    frame_length: usize,
    taken: Vec<bool>,
}

impl<T: Copy> Model for Pool<T> {
    ghost use Rattle.std.specs.Prelude.{◌≡◌, ◌≤◌, ◌*◌, ◌^◌, length};
    ghost use Rattle.cdb_pool.specs.Frames.{Frames, frames_code, IsWholeBlock};

    ghost Value = { Frames T };

    ghost coded = { frames_code T.code };

    ghost view = { λ p. record { items = p.block.items; frame_length = p.frame_length; out = p.taken.items } };

    ghost invariant = { λ p. IsWholeBlock p.block.items p.frame_length p.taken.items };
}

/// The number of the first frame that isn't out.
fn first_free(taken: &[bool]) -> Option<usize>
    ensures { result ≡ position not taken.now }
{
    taken.iter().position(|out| !*out)
}

/// So many items from a place on.
fn part<T>(items: &[T], start: usize, len: usize) -> &[T]
    requires { start + len ≤ length items.now }
    ensures { result.now ≡ take len (drop start items.now) }
{
    &items[start..start + len]
}

/// Two parts of a slice that don't meet, the first to be written.
fn two_parts<T>(items: &mut [T], to: usize, from: usize, len: usize) -> (&mut [T], &[T])
    requires to { to + len ≤ length items.old }
    requires from { from + len ≤ length items.old }
    requires apart { (to + len ≤ from) ⊎ (from + len ≤ to) }
    ensures* writes_back { sem 𝓛 (lends_part T.row items.entry to result.0) }
    ensures parts { (result.0.now ≡ take len (drop to items.old)) × (result.1.now ≡ take len (drop from items.old)) }
{
    let p = items.as_mut_ptr();
    unsafe {
        (
            from_raw_parts_mut(p.add(to), len),
            from_raw_parts(p.add(from), len),
        )
    }
}

/// The same of a `Vec`.
fn two_parts_of<T, B: Allocator>(
    block: &mut Vec<T, B>,
    to: usize,
    from: usize,
    len: usize,
) -> (&mut [T], &[T])
    requires to { to + len ≤ vec_len block.old }
    requires from { from + len ≤ vec_len block.old }
    requires apart { (to + len ≤ from) ⊎ (from + len ≤ to) }
    ensures* writes_back { sem 𝓛 (vec_follows_range T.row B.row B.Allocator block.entry to result.0) }
    ensures parts { (result.0.now ≡ take len (drop to block.old.items))
        × (result.1.now ≡ take len (drop from block.old.items)) }
{
    two_parts(block.as_mut_slice(), to, from, len)
}

impl<T: Copy> Pool<T> {
    /// So many frames of this length, filled with one value. All memory is taken here.
    pub fn new(alloc: Global, frames: u32, length: u32, fill: T) -> Result<Pool<T>, AllocError>
        requires frames { 1 ≤ frames }
        requires long { 1 ≤ length }
        requires most { frames * length ≤ 2 ^ 28 }
        ensures { IfOk result (IsNew T.is_clone frames length fill) }
    {
        let block = vec![in alloc; fill; frames as usize * length as usize]?;
        let taken = vec![in alloc; false; frames as usize]?;
        Ok(Pool {
            block,
            frame_length: length as usize,
            taken,
        })
    }

    /// How many frames aren't out.
    pub fn free(&self) -> u32
        ensures { result ≡ count_by not self.now.out }
    {
        self.taken.iter().filter(|out| !**out).count() as u32
    }

    /// The first frame that isn't out, with the contents that it has, or `None` where all are out.
    pub fn take(&mut self) -> Option<Frame>
        ensures frame { MatchOption result (AllOut self.old) (λ frame. IsFirstFree self.old frame.number) }
        ensures after { MatchOption result (self.new ≡ self.old)
            (λ frame. self.new ≡ with_out self.old frame.number true) }
        ensures ready { IfSome result (λ frame. IsLent self.new frame.number self.old.frame_length) }
    {
        let Some(number) = first_free(self.taken.as_slice()) else {
            return None;
        };
        self.taken[number] = true;
        Some(Frame {
            number: number as u32,
        })
    }

    /// Takes a frame back. Its contents stay.
    pub fn give(&mut self, frame: Frame)
        requires { IsOut self.old frame.number }
        ensures { self.new ≡ with_out self.old frame.number false }
    {
        self.taken[frame.number as usize] = false;
    }

    /// The contents of a frame.
    pub fn get(&self, frame: &Frame) -> &[T]
        requires { IsOut self.now frame.now.number }
        ensures value { result.now ≡ contents self.now frame.now.number }
        ensures len { length result.now ≡ self.now.frame_length }
    {
        let start = frame.number as usize * self.frame_length;
        part(self.block.as_slice(), start, self.frame_length)
    }

    /// The contents of a frame, to be written.
    pub fn get_mut(&mut self, frame: &Frame) -> &mut [T]
        requires { IsOut self.old frame.now.number }
        ensures* writes_back { sem 𝓛 (lends_frame T.row self.entry frame.now.number result) }
        ensures value { result.now ≡ contents self.old frame.now.number }
        ensures len { length result.now ≡ self.old.frame_length }
    {
        let start = frame.number as usize * self.frame_length;
        let end = start + self.frame_length;
        self.block.slice_mut(start..end)
    }

    /// Two different frames, the first to be written.
    pub fn pair(&mut self, to: &Frame, from: &Frame) -> (&mut [T], &[T])
        requires to { IsOut self.old to.now.number }
        requires from { IsOut self.old from.now.number }
        requires apart { to.now.number ≢ from.now.number }
        ensures* writes_back { sem 𝓛 (lends_frame T.row self.entry to.now.number result.0) }
        ensures value { result.0.now ≡ contents self.old to.now.number }
        ensures other { result.1.now ≡ contents self.old from.now.number }
        ensures len { length result.0.now ≡ self.old.frame_length }
        ensures other_len { length result.1.now ≡ self.old.frame_length }
    {
        let into = to.number as usize * self.frame_length;
        let out_of = from.number as usize * self.frame_length;
        two_parts_of(&mut self.block, into, out_of, self.frame_length)
    }

    /// The law of frames: what is written through one of them leaves every other as it was.
    pub fn frames_are_apart(&self)
        ensures { FramesAreApart self.now }
    {
        let _ = &self.block;
    }

    /// The law of `take`: what it hands out is none of the frames that are out.
    #[tactic(auto, using(crate::proofs::OutLaws::takes_another))]
    pub fn frames_are_taken_once(&self)
        ensures { TakesOther self.now }
    {}
}
