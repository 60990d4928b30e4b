//! Places along one axis, each with the post at or before it and the distance to that post.
ghost use Rattle.std.specs.Prelude.{◌≡◌, ◌+◌, ◌*◌, ◌/◌, ◌%◌, ◌^◌, ◌≤◌, ◌<◌, length};
ghost use Rattle.cdb_cut.specs.Painted.{Stand};

/// Places along one axis: how far the first one stands from a source's first post, the step from one
/// place to the next, and the step from one post to the next.
#[derive(Clone, Copy)]
pub(crate) struct Axis {
    pub start: u64,
    pub stride: u64,
    pub step: u64,
    pub ghost near: { start < 2 ^ 56 },
    pub ghost strides: { stride ≤ 417470821171200 },
    pub ghost least: { 1 ≤ step },
    pub ghost most: { step ≤ 417470821171200 },
}

/// Where a place stands: the number of the post at or before it, and the distance to it.
#[derive(Clone, Copy)]
pub(crate) struct Along {
    pub post: u64,
    pub part: u64,
}

impl Axis {
    /// Where the place of a number stands.
    pub(crate) fn along(&self, number: u64) -> Along
        requires { number ≤ 1024 }
        ensures post { result.post ≡ (self.now.start + number * self.now.stride) / self.now.step }
        ensures part { result.part ≡ (self.now.start + number * self.now.stride) % self.now.step }
        ensures below { result.part < self.now.step }
    {
        let far = self.start + number * self.stride;
        Along {
            post: far / self.step,
            part: far % self.step,
        }
    }

    /// Writes where the first places stand, so many of them.
    pub(crate) fn stand(&self, count: usize, posts: &mut [usize], parts: &mut [u64])
        requires count { count ≤ 1024 }
        requires posts { count ≤ length posts.old }
        requires parts { count ≤ length parts.old }
        ensures { Stand self.now.start self.now.stride self.now.step count posts.new parts.new }
    {
        for k in 0..count {
            let at = self.along(k as u64);
            posts[k] = at.post as usize;
            parts[k] = at.part;
        }
    }
}

/// Where the columns of a part of a tile stand in a source: the post at or before each, and the distance
/// to it.
#[derive(Clone, Copy)]
pub(crate) struct Columns<'a> {
    pub axis: Axis,
    pub posts: &'a [usize],
    pub parts: &'a [u64],
}

/// The post after a place, or the one at which it stands.
pub(crate) fn post_beyond(post: usize, part: u64) -> usize
    requires { post < 2 ^ 62 }
    ensures on_post { part ≡ 0 → result ≡ post }
    ensures beyond { 1 ≤ part → result ≡ post + 1 }
{
    if part == 0 { post } else { post + 1 }
}
