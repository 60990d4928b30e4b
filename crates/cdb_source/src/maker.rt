use crate::head::SourceHead;
use crate::posts::Posts;
use crate::row::{is_row, put_row};
use crate::source::Source;
use std::alloc::{AllocError, Global};
use std::marker::Model;

/// A number of a row is no post of the source's kind.
#[derive(Clone, Copy, Debug, PartialEq, Eq)]
pub struct Range;

/// A source in the making: it takes the rows as a file or a line has them, north row first. Seen as
/// its head, the number of rows still due, and the posts of the rows that came, south row first.
#[derive(Debug, Drop)]
pub struct SourceMaker {
    head: SourceHead,
    due: u32,
    posts: Vec<i16>,
}

impl Model for SourceMaker {
    ghost use Rattle.std.specs.Prelude.{◌*◌, drop};
    ghost use Rattle.cdb_source.specs.Made.{Making};

    ghost Value = { Making };

    ghost use Rattle.cdb_source.specs.Maker.{making, IsSoundMaker};

    ghost view = { making };

    ghost invariant = { IsSoundMaker };
}

impl SourceMaker {
    ghost use Rattle.std.specs.Prelude.{◌≡◌, ◌≢◌, ◌+◌, ◌<◌, ◌↔◌, ◌++◌, [], IfOk, IsOk, OnOk, OnErr, All, map, length};
    ghost use Rattle.cdb_source.specs.Posts.{IsAllowed, post_of};

    /// Takes all the memory that the source needs.
    pub fn new(alloc: Global, head: SourceHead) -> Result<SourceMaker, AllocError>
        ensures head { IfOk result (λ maker. maker.head ≡ head) }
        ensures due { IfOk result (λ maker. maker.due ≡ head.rows) }
        ensures posts { IfOk result (λ maker. maker.posts ≡ []) }
    {
        let posts = vec![in alloc; head.kind.no_value(); head.rows as usize * head.cols as usize]?;
        Ok(SourceMaker {
            head,
            due: head.rows,
            posts,
        })
    }

    /// Takes the next row to the south, one number a column from west to east, while rows are due. A
    /// number equal to `novalue` has no value. `Range` exactly where another number is outside -32768 to
    /// 32767 for elevation, or outside 0 to 255 for material; the maker is then unchanged.
    pub fn push_row(&mut self, row: &[i32], novalue: i32) -> Result<(), Range>
        requires due { 0 < self.old.due }
        requires row { length row.now ≡ self.old.head.cols }
        ensures allowed { IsOk result ↔ All (IsAllowed self.old.head.kind novalue) row.now }
        ensures head { self.new.head ≡ self.old.head }
        ensures due { OnOk result (self.new.due + 1 ≡ self.old.due) }
        ensures posts { OnOk result
            (self.new.posts ≡ map (post_of self.old.head.kind novalue) row.now ++ self.old.posts) }
        ensures err { OnErr result (self.new ≡ self.old) }
    {
        if !is_row(self.head.kind, novalue, row) {
            return Err(Range);
        }
        let cols = self.head.cols as usize;
        let from = (self.due as usize - 1) * cols;
        put_row(
            self.head.kind,
            novalue,
            row,
            from,
            self.posts.as_mut_slice(),
        );
        self.due -= 1;
        Ok(())
    }

    /// The source, once all rows came. Its head is the maker's, and its last row that came is the
    /// south row.
    pub fn finish(self) -> Source
        requires { self.due ≡ 0 }
        ensures head { result.head ≡ self.head }
        ensures posts { result.posts ≡ self.posts }
    {
        let SourceMaker {
            head,
            due: _,
            posts,
        } = self;
        Source {
            head,
            posts: Posts::from(posts),
        }
    }
}
