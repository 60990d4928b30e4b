ghost use Rattle.std.specs.Prelude.{◌≡◌, ◌≢◌, ◌++◌, ◌∷◌, ◌<◌, [], List, length, vec_len, vec_capacity, IfOk, OnOk, OnErr, MatchOption};
ghost use Rattle.std.proofs.Props.{props};
ghost use Rattle.cdb_model.specs.Maps.{IsThere, size_of, HasBytesUpTo, HasAt, NoneUnder, IsFirstUnder};
ghost use Rattle.cdb_files.specs.Disk.{State};
ghost use Rattle.cdb_memfiles.specs.Files.{IsShort};
ghost use Rattle.cdb_memfiles.specs.History.{apply, replay};
ghost use Rattle.cdb_memfiles.specs.Record.{IsTied};

use crate::call::Call;
use crate::files::{ByPath, extend, first_in, move_file, read_in, size_in, store, take};
use cdb_files::Path;
use std::alloc::{AllocError, Global};
use std::collections::BTreeMap;

/// The calls that a disk answered with Ok, and the files that they lead to.
#[derive(Drop)]
pub struct Record {
    pub alloc: Global,
    pub calls: Vec<Call>,
    pub files: ByPath,
    pub ghost tied: { IsTied files calls.items } by { Prim.hlevel props },
    pub ghost short: { IsShort files } by { Prim.hlevel props },
}

/// Adds a call where there is room for one.
fn push(calls: &mut Vec<Call>, call: Call)
    requires { vec_len calls.old < vec_capacity calls.old }
    ensures { calls.new.items ≡ calls.old.items ++ call ∷ [] }
{
    match calls.push(call) {
        Ok(()) => {}
        Err(_) => unreachable!(),
    }
}

fn copy_of(alloc: Global, bytes: &[u8]) -> Result<Vec<u8>, AllocError>
    ensures { IfOk result (λ copy. copy.items ≡ bytes.now) }
{
    let mut copy = Vec::new(alloc);
    copy.extend_from_slice(bytes)?;
    Ok(copy)
}

impl Record {
    pub fn new(alloc: Global) -> Record
        ensures { result.calls.items ≡ [] }
    {
        Record {
            alloc,
            calls: Vec::new(alloc),
            files: BTreeMap::new(alloc),
        }
    }

    /// A call that changes no file.
    pub fn note(&mut self, call: Call) -> Result<(), AllocError>
        requires { (s : State) → (apply call s).present ≡ s.present }
        ensures ok { OnOk result (self.new.calls.items ≡ self.old.calls.items ++ call ∷ []) }
        ensures err { OnErr result (self.new.calls.items ≡ self.old.calls.items) }
    {
        self.calls.try_reserve(1)?;
        push(&mut self.calls, call);
        Ok(())
    }

    pub fn create(&mut self, path: &Path) -> Result<(), AllocError>
        ensures ok { OnOk result (self.new.calls.items ≡ self.old.calls.items ++ Call.Create path.now ∷ []) }
        ensures err { OnErr result (self.new.calls.items ≡ self.old.calls.items) }
    {
        self.calls.try_reserve(1)?;
        store(&mut self.files, path, Vec::new(self.alloc))?;
        push(&mut self.calls, Call::Create(*path));
        Ok(())
    }

    pub fn append(&mut self, path: &Path, piece: &[u8]) -> Result<(), AllocError>
        requires { IsThere ((replay self.old.calls.items).present path.now.bytes) }
        ensures ok { OnOk result ((bytes : _) × (bytes.items ≡ piece.now)
            × (self.new.calls.items ≡ self.old.calls.items ++ Call.Append path.now bytes ∷ [])) }
        ensures err { OnErr result (self.new.calls.items ≡ self.old.calls.items) }
    {
        let bytes = copy_of(self.alloc, piece)?;
        self.calls.try_reserve(1)?;
        extend(&mut self.files, path, piece)?;
        push(&mut self.calls, Call::Append(*path, bytes));
        Ok(())
    }

    pub fn rename(&mut self, from: &Path, to: &Path) -> Result<(), AllocError>
        requires differ { from.now.bytes ≢ to.now.bytes }
        requires there { IsThere ((replay self.old.calls.items).present from.now.bytes) }
        ensures ok { OnOk result (self.new.calls.items ≡ self.old.calls.items ++ Call.Rename from.now to.now ∷ []) }
        ensures err { OnErr result (self.new.calls.items ≡ self.old.calls.items) }
    {
        self.calls.try_reserve(1)?;
        move_file(&mut self.files, from, to, Vec::new(self.alloc))?;
        push(&mut self.calls, Call::Rename(*from, *to));
        Ok(())
    }

    pub fn remove(&mut self, path: &Path) -> Result<(), AllocError>
        ensures ok { OnOk result (self.new.calls.items ≡ self.old.calls.items ++ Call.Remove path.now ∷ []) }
        ensures err { OnErr result (self.new.calls.items ≡ self.old.calls.items) }
    {
        self.calls.try_reserve(1)?;
        take(&mut self.files, path);
        push(&mut self.calls, Call::Remove(*path));
        Ok(())
    }

    /// A file that a crash left.
    pub fn restore(&mut self, path: &Path, bytes: Vec<u8>) -> Result<(), AllocError>
        ensures ok { OnOk result ((kept : _) × (kept.items ≡ bytes.items)
            × (self.new.calls.items ≡ self.old.calls.items ++ Call.Restore path.now kept ∷ [])) }
        ensures err { OnErr result (self.new.calls.items ≡ self.old.calls.items) }
    {
        let kept = copy_of(self.alloc, bytes.as_slice())?;
        self.calls.try_reserve(1)?;
        store(&mut self.files, path, bytes)?;
        push(&mut self.calls, Call::Restore(*path, kept));
        Ok(())
    }

    pub fn size(&self, path: &Path) -> Option<u64>
        ensures { result ≡ size_of ((replay self.now.calls.items).present path.now.bytes) }
    {
        size_in(&self.files, path)
    }

    pub fn read_at(&self, path: &Path, at: u64, into: &mut [u8])
        requires { HasBytesUpTo ((replay self.now.calls.items).present path.now.bytes) at (length into.old) }
        ensures { HasAt ((replay self.now.calls.items).present path.now.bytes) at into.new }
    {
        read_in(&self.files, path, at, into);
    }

    pub fn first_under(&self, folder: &Path) -> Option<Path>
        ensures { MatchOption result (NoneUnder (replay self.now.calls.items).present folder.now.bytes)
            (λ path. IsFirstUnder (replay self.now.calls.items).present folder.now.bytes path.bytes) }
    {
        first_in(&self.files, folder)
    }
}
