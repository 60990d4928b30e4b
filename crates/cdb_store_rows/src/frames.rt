//! Frames of a pool.
ghost use Rattle.std.specs.Prelude.{◌≡◌, ◌≢◌, true};
ghost use Rattle.cdb_pool.specs.Frames.{IsOut, with_out};
ghost use Rattle.cdb_pool.specs.Laws.{TakesAnother};

use cdb_pool::{Frame, Pool};
use std::process::Abort;

/// A frame that is out now.
fn frame(rt: &impl Abort, pool: &mut Pool<i16>) -> Frame
    ensures another { TakesAnother pool.old result.number pool.new }
    ensures after { pool.new ≡ with_out pool.old result.number true }
{
    pool.frames_are_taken_once();
    pool.take().expect(rt, "a free frame")
}

/// Whether no frame is free.
fn none_is_free(pool: &mut Pool<i16>) -> bool
    ensures { result ≡ true → pool.new ≡ pool.old }
{
    pool.take().is_none()
}

/// The last post of `from` goes first in `to`, and the first last.
fn cross(pool: &mut Pool<i16>, to: &Frame, from: &Frame)
    requires to { IsOut pool.old to.now.number }
    requires from { IsOut pool.old from.now.number }
    requires apart { to.now.number ≢ from.now.number }
    requires four { pool.old.frame_length ≡ 4 }
    ensures out { pool.new.out ≡ pool.old.out }
    ensures four { pool.new.frame_length ≡ 4 }
{
    let (into, out_of) = pool.pair(to, from);
    into[0] = out_of[3];
    into[3] = out_of[0];
}

#[test]
fn pair_lends_two_frames_in_either_order(rt: HostRuntime) {
    let mut pool: Pool<i16> = Pool::new(rt.alloc(), 3, 4, 7).expect(&rt, "memory");
    let low = frame(&rt, &mut pool);
    let middle = frame(&rt, &mut pool);
    let high = frame(&rt, &mut pool);
    pool.get_mut(&low).copy_from_slice(&[1, 2, 3, 4]);
    cross(&mut pool, &high, &low);
    assert_eq!(rt; pool.get(&low), [1, 2, 3, 4].as_slice());
    assert_eq!(rt; pool.get(&high), [4, 7, 7, 1].as_slice());
    cross(&mut pool, &low, &high);
    assert_eq!(rt; pool.get(&low), [1, 2, 3, 4].as_slice());
    assert_eq!(rt; pool.get(&middle), [7, 7, 7, 7].as_slice());
    assert_eq!(rt; pool.get(&high), [4, 7, 7, 1].as_slice());
}

#[test]
fn a_frame_is_taken_given_and_taken_again(rt: HostRuntime) {
    let mut pool: Pool<i16> = Pool::new(rt.alloc(), 2, 3, 9).expect(&rt, "memory");
    pool.frames_are_apart();
    assert_eq!(rt; pool.free(), 2);
    let first = frame(&rt, &mut pool);
    let second = frame(&rt, &mut pool);
    assert_eq!(rt; pool.free(), 0);
    pool.get_mut(&second).copy_from_slice(&[1, 2, 3]);
    if !none_is_free(&mut pool) {
        rt.abort();
    }
    assert_eq!(rt; pool.get(&first), [9, 9, 9].as_slice());
    pool.give(second);
    assert_eq!(rt; pool.free(), 1);
    // its contents stay
    let again = frame(&rt, &mut pool);
    assert_eq!(rt; pool.get(&again), [1, 2, 3].as_slice());
}
