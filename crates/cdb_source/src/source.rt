ghost use Rattle.std.specs.Prelude.{◌≡◌, ◌*◌, length, All};
ghost use Rattle.cdb_source.specs.Posts.{IsPost};

use crate::head::SourceHead;
use crate::posts::Posts;

/// A source: its head, and `rows * cols` posts, south row first. A post of elevation is in whole
/// metres, and -32768 stands for no value. A post of material is from 0 to 255, and 0 stands for no
/// value.
#[derive(Debug, Drop)]
pub struct Source {
    pub head: SourceHead,
    pub posts: Posts,
    pub ghost count: { length posts ≡ head.rows * head.cols },
    pub ghost in_range: { All (IsPost head.kind) posts },
}
