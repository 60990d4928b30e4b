//! The tiles that were read last.
ghost use Rattle.std.specs.Prelude.{◌≡◌, ◌≤◌, ◌+◌, ◌∷◌, ◌<◌, [], false, Some, Err, length, take, replicate};
ghost use Rattle.std.specs.Prelude.{option_map, slice_get, IfOk, OnOk};
ghost use Rattle.cdb_model.specs.Causes.{HasCause, Rose};
ghost use Rattle.cdb_files.specs.Moments.{Rests};
ghost use Rattle.cdb_files.specs.Whole.{IsOtherThan};
ghost use Rattle.cdb_tiff_write.specs.Rasters.{tile_size};
ghost use Rattle.cdb_sessions.specs.Cache.{Kept, numbered_frames};
ghost use Rattle.cdb_sessions.specs.inside.Cache.{IsUsed, IsFileRead, IsReadFrom, with_flags};
ghost use Rattle.cdb_model.specs.declared.limits.TheConstants.{MOST_VERSIONS};

use crate::errors::TileError;
use crate::slot::Pair;
use crate::slots::{Slots, new_slots, renew_last, use_slot};
use cdb_files::{Disk, Failed, Path, ReadSize, read_whole};
use cdb_model::MOST_TILE_BYTES;
use cdb_names::write_path;
use cdb_pool::{Frame, Pool};
use cdb_tiff_write::tile_size;
use std::alloc::{AllocError, Global};
use std::marker::Model;

/// At most seven files of tiles, the one that was used last first, and a spare frame.
#[derive(Drop)]
pub(crate) struct Cache {
    pool: Pool<u8>,
    frames: Vec<Frame>,
    slots: Slots,
    spare: u8,
}

impl Model for Cache {
    ghost use Rattle.cdb_sessions.specs.Cache.{Cache as State, cache_of, IsCache};

    ghost Value = { State };

    ghost view = { λ c. cache_of c.pool c.slots.entries c.spare };

    ghost invariant = { λ c. IsCache c.pool c.frames.items c.slots c.spare };
}

/// Takes all frames of a pool of eight, in the order of their numbers.
fn take_frames(alloc: Global, pool: &mut Pool<u8>) -> Result<Vec<Frame>, AllocError>
    requires { pool.old.out ≡ replicate 8 false }
    ensures frames { IfOk result (λ frames. frames.items ≡ numbered_frames 8) }
    ensures pool { OnOk result (pool.new ≡ with_flags pool.old 8) }
{
    let mut frames = Vec::new(alloc);
    for number in 0..8u32 {
        let Some(frame) = pool.take() else {
            unreachable!();
        };
        frames.push(frame)?;
    }
    Ok(frames)
}

/// Reads a whole file of this length into the beginning of a frame, where its length is this.
fn read_into<D: Disk>(
    disk: &mut D,
    path: &Path,
    frame: &mut [u8],
    len: usize,
) -> Result<ReadSize, Failed>
    requires { len ≤ length frame.old }
    ensures read { D.tells → IfOk result (IsFileRead ((D.state disk.old).present path.now.bytes) (take len frame.new)) }
    ensures other { IfOk result (IsOtherThan len) }
    ensures state { D.state disk.new ≡ D.state disk.old }
    ensures time { Rests (D.clock disk.old) (D.clock disk.new) (D.since disk.old) (D.since disk.new) }
    ensures cause { HasCause (D.fault_count disk.old) (D.fault_count disk.new) result }
    ensures reads { (D.read_count disk.old ≤ D.read_count disk.new)
        × (D.read_count disk.new ≤ D.read_count disk.old + 1) }
{
    let (into, _) = frame.split_at_mut(len);
    read_whole(disk, path, into)
}

impl Cache {
    /// No file is kept. All memory is taken here.
    pub(crate) fn new(alloc: Global) -> Result<Cache, AllocError>
        ensures { IfOk result (λ cache. cache.kept ≡ []) }
    {
        let mut pool = Pool::new(alloc, 8, MOST_TILE_BYTES as u32, 0)?;
        let frames = take_frames(alloc, &mut pool)?;
        let slots = new_slots(alloc)?;
        Ok(Cache {
            pool,
            frames,
            slots,
            spare: 7,
        })
    }

    /// Reads a whole file of this length into the beginning of the spare frame, where its length is
    /// this.
    pub(crate) fn fill_spare<D: Disk>(
        &mut self,
        disk: &mut D,
        path: &Path,
        len: usize,
    ) -> Result<ReadSize, Failed>
        requires { len ≤ MOST_TILE_BYTES }
        ensures kept { self.new.kept ≡ self.old.kept }
        ensures len { length self.new.spare ≡ MOST_TILE_BYTES }
        ensures read { D.tells
            → IfOk result (IsFileRead ((D.state disk.old).present path.now.bytes) (take len self.new.spare)) }
        ensures other { IfOk result (IsOtherThan len) }
        ensures state { D.state disk.new ≡ D.state disk.old }
        ensures time { Rests (D.clock disk.old) (D.clock disk.new) (D.since disk.old) (D.since disk.new) }
        ensures cause { HasCause (D.fault_count disk.old) (D.fault_count disk.new) result }
        ensures reads { (D.read_count disk.old ≤ D.read_count disk.new)
            × (D.read_count disk.new ≤ D.read_count disk.old + 1) }
    {
        let frame = &self.frames[self.spare as usize];
        let into = self.pool.get_mut(frame);
        read_into(disk, path, into, len)
    }

    /// Reads the file from the disk and keeps it, as the first.
    pub(crate) fn read_file<D: Disk>(&mut self, pair: Pair, disk: &mut D) -> Result<(), TileError>
        requires from_one { 1 ≤ pair.version }
        requires to_last { pair.version ≤ MOST_VERSIONS }
        ensures outcome { IsReadFrom D.tells (D.state disk.old).present pair self.old.kept self.new.kept result }
        ensures state { D.state disk.new ≡ D.state disk.old }
        ensures time { Rests (D.clock disk.old) (D.clock disk.new) (D.since disk.old) (D.since disk.new) }
        ensures later { D.fault_count disk.old ≤ D.fault_count disk.new }
        ensures failed { result ≡ Err TileError.Fault → Rose (D.fault_count disk.old) (D.fault_count disk.new) }
        ensures reads { (D.read_count disk.old ≤ D.read_count disk.new)
            × (D.read_count disk.new ≤ D.read_count disk.old + 1) }
    {
        let path = write_path(pair.version, &pair.tile);
        let len = tile_size(&pair.tile);
        match self.fill_spare(disk, &path, len) {
            Ok(ReadSize::Read) => {
                self.keep(pair);
                Ok(())
            }
            Ok(ReadSize::Other(found)) => Err(TileError::Damaged {
                expected: len as u64,
                found,
            }),
            Err(_) => Err(TileError::Fault),
        }
    }

    /// The bytes of the file that was used last.
    pub(crate) fn first(&self) -> &[u8]
        requires { 0 < length self.now.kept }
        ensures bytes { Some result.now ≡ option_map (λ (k : Kept). k.bytes) (slice_get self.now.kept 0) }
        ensures small { length result.now ≤ MOST_TILE_BYTES }
    {
        let Some((_, slot)) = self.slots.peek_mru() else {
            unreachable!();
        };
        let Some(pair) = &slot.pair else {
            unreachable!();
        };
        let bytes = self.pool.get(&self.frames[slot.frame as usize]);
        bytes.split_at(tile_size(&pair.tile)).0
    }

    /// At most seven files are kept.
    pub(crate) fn kept_are_few(&self)
        ensures { length self.now.kept ≤ 7 }
    {
        let _ = &self.slots;
    }

    /// Whether the file is kept; it is the first then.
    pub(crate) fn use_file(&mut self, pair: &Pair) -> bool
        ensures { IsUsed pair.now self.old self.new result }
    {
        let Some(_) = use_slot(&mut self.slots, pair) else {
            return false;
        };
        true
    }

    /// Keeps the file whose bytes the spare frame begins with, as the first. Of seven files the last
    /// one goes.
    pub(crate) fn keep(&mut self, pair: Pair)
        ensures { self.new.kept
            ≡ record { pair = pair; bytes = take (tile_size pair.tile) self.old.spare } ∷ take 6 self.old.kept }
    {
        self.spare = renew_last(&mut self.slots, self.spare, pair);
    }
}
