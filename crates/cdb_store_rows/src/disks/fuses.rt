//! Disks that are cut off.
use super::{has, path, write};
use cdb_files::{Disk, Path, folder_above};
use cdb_memfiles::{Fuse, MemDisk};
use std::alloc::Global;
use std::test::Fail;

/// Whether so many of these calls pass: `make_dir`, `create`, `append`, `sync_file`, `sync_dir`,
/// `size`. The file is then the one that is wanted.
fn passes(alloc: Global, calls: u64, file: &Path, want: Option<&[u8]>) -> Result<bool, Fail> {
    let mut fuse = Fuse::new(MemDisk::new(alloc, Vec::new(alloc)), calls);
    let written = write(&mut fuse, file, b"abcde").is_ok();
    let synced = fuse.sync_dir(&folder_above(file)).is_ok();
    let sized = fuse.size(file).is_ok();
    let failed = u64::from(!written) + u64::from(!synced) + u64::from(!sized);
    let counted = fuse.faults() == failed;
    let mut disk = fuse.disk();
    let same = has(alloc, &mut disk, file, want)?;
    Ok(
        same && counted
            && written == (calls >= 4)
            && synced == (calls >= 5)
            && sized == (calls >= 6),
    )
}

#[test]
fn a_fuse_passes_so_many_calls(rt: HostRuntime) -> Result<(), Fail> {
    let file = path(&rt, "a/f");
    let rows: [Option<&[u8]>; 7] = [
        None,
        None,
        Some(b""),
        Some(b"abcde"),
        Some(b"abcde"),
        Some(b"abcde"),
        Some(b"abcde"),
    ];
    let mut calls = 0;
    for want in rows {
        assert!(rt; passes(rt.alloc(), calls, &file, want)?);
        calls = calls.saturating_add(1);
    }
    Ok(())
}
