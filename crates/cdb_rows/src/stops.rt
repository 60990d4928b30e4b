//! Publications that a stop cuts off at any call of the disk, and stores that are opened afterwards.

use crate::script::{HEAD, check, is_joined, new_disk, run};
use cdb_files::{Disk, Path};
use cdb_front::{MemOutput, Status};
use cdb_memfiles::{Fuse, MemDisk, Pick};
use cdb_names::version_folder;
use std::alloc::Global;
use std::test::Fail;

/// What a crash may leave.
pub const PICKS: [Pick; 3] = [Pick::Newest, Pick::Oldest, Pick::Torn];

/// A first publication.
const FIRST: &[u8] = b"inline elev -10 46 7 1 1 1 1 500\npublish\nstep all\n";

/// A second one in the next opening.
const SECOND: &[u8] = b"inline elev -10 46 7 1 1 1 1 600\npublish\nstep all\n";

/// Asks which version is the newest, and for a tile of it.
const ASK: &[u8] = b"versions\nopen\ntile 1 N46E007_D001_S001_T001_LC10_U0_R0.tif\n";

/// A disk with the first publication.
fn first_store(alloc: Global) -> Result<MemDisk, Fail> {
    let mut disk = new_disk(alloc, 0)?;
    run(alloc, &mut disk, FIRST)?;
    Ok(disk)
}

/// The version at which the store opens, if all its files agree, it is 1 or 2, and its tile has the value of
/// that version.
fn opens_at(alloc: Global, disk: &mut MemDisk) -> Result<Option<u32>, Fail> {
    let version = served_at(alloc, disk)?;
    let agreed = match version {
        Some(1) => b"agrees 1 5\n".as_slice(),
        Some(_) => b"agrees 2 10\n".as_slice(),
        None => return Ok(None),
    };
    let (_, output) = check(alloc, disk)?;
    Ok(if output.written() == agreed {
        version
    } else {
        None
    })
}

/// The version at which the store opens, if it is 1 or 2 and its tile has the value of that version.
fn served_at(alloc: Global, disk: &mut MemDisk) -> Result<Option<u32>, Fail> {
    let (_, output) = run(alloc, disk, ASK)?;
    let first: [&[u8]; 3] = [b"versions 1\nsession 1 1\ntile 188\n", &HEAD, &[0xF4, 0x01]];
    let second: [&[u8]; 3] = [b"versions 2\nsession 1 2\ntile 188\n", &HEAD, &[0x58, 0x02]];
    Ok(if is_joined(output.written(), &first) {
        Some(1)
    } else if is_joined(output.written(), &second) {
        Some(2)
    } else {
        None
    })
}

/// Runs a script over the disk, which is cut off after so many calls; then what a crash leaves, how the
/// run ended and what it wrote.
fn stop(
    alloc: Global,
    disk: MemDisk,
    script: &[u8],
    calls: u64,
    pick: Pick,
) -> Result<(MemDisk, Status, MemOutput), Fail> {
    let mut fuse = Fuse::new(disk, calls);
    let (status, output) = run(alloc, &mut fuse, script)?;
    Ok((fuse.disk().crash(pick)?, status, output))
}

/// The versions at which the store opens once its second publication was cut off after so many calls, one
/// for each pick; and whether that publication was acknowledged.
fn versions_after(alloc: Global, calls: u64) -> Result<([u32; 3], bool), Fail> {
    let mut versions = [0; 3];
    let mut published = false;
    for (version, pick) in versions.iter_mut().zip(PICKS) {
        let (mut disk, _, output) = stop(alloc, first_store(alloc)?, SECOND, calls, pick)?;
        published = output.written().ends_with(b"published 2\n".as_slice());
        *version = opens_at(alloc, &mut disk)?.ok_or("the store doesn't open at a version")?;
    }
    Ok((versions, published))
}

/// Cut off before the rename of the head, the store is at its first version, whatever is left; between
/// the rename and the sync behind it, at the first or the second; after that, where the publication is
/// acknowledged, at the second.
#[test]
fn a_publication_stops_at_each_call(rt: HostRuntime) -> Result<(), Fail> {
    let (mut before, mut between) = (0u64, 0u64);
    let mut ended = false;
    for calls in 0..1000 {
        let (versions, published) = versions_after(rt.alloc(), calls)?;
        if published {
            assert_eq!(rt; versions, [2, 2, 2]);
            ended = true;
            break;
        }
        if versions == [1, 1, 1] && between == 0 {
            before = before.saturating_add(1);
        } else {
            assert_eq!(rt; versions, [2, 1, 2]);
            between = between.saturating_add(1);
        }
    }
    assert!(rt; ended && before > 40);
    assert_eq!(rt; between, 1);
    Ok(())
}

/// So many calls into the second run, the files of its publication are there and its head isn't.
const MIDDLE: u64 = 40;

/// Whether the store opens at its first version once its second publication was cut off in the middle, and
/// the recovery after that cut off after so many calls, whatever is left each time; and whether the
/// recovery wasn't cut off.
fn recovers(alloc: Global, calls: u64, left: Pick) -> Result<(bool, bool), Fail> {
    let (mut all, mut whole) = (true, false);
    for pick in PICKS {
        let (mut disk, _, _) = stop(alloc, first_store(alloc)?, SECOND, MIDDLE, left)?;
        if disk.first_under(&version_folder(2))?.is_none() {
            return Err("nothing of the second publication is left".into());
        }
        let (mut disk, status, _) = stop(alloc, disk, b"versions\n", calls, pick)?;
        whole = status == Status::Done;
        all = all && opens_at(alloc, &mut disk)? == Some(1);
    }
    Ok((all, whole))
}

/// A recovery that is cut off after each number of calls, one of which is at its second removal.
#[test]
fn a_recovery_stops_at_each_call(rt: HostRuntime) -> Result<(), Fail> {
    for left in [Pick::Newest, Pick::Torn] {
        let mut ended = 0;
        for calls in 0..200 {
            let (all, whole) = recovers(rt.alloc(), calls, left)?;
            assert!(rt; all);
            if whole {
                ended = calls;
                break;
            }
        }
        // The root is synced, the head read, and each file that is left found and removed.
        assert!(rt; ended > 10);
    }
    Ok(())
}

/// Two publications, the second of which fails at a step; what follows is refused, and tiles are served.
const FAILING: &[u8] =
    b"inline elev -10 46 7 1 1 1 1 500\npublish\nstep all\nopen\ntile 1 N46E007_D001_S001_T001_LC10_U0_R0.tif\ninline elev -10 46 7 1 1 1 1 600\npublish\nstep all\nstep all\npublish\ntile 1 N46E007_D001_S001_T001_LC10_U0_R0.tif\n";

/// Whether these are the answers where a call of the second publication failed.
fn is_halted(written: &[u8]) -> bool {
    let halted: [&[u8]; 6] = [
        b"source 1\nbegun 1 3\npublished 1\nsession 1 1\ntile 188\n",
        &HEAD,
        &[0xF4, 0x01],
        b"source 1\nbegun 2 3\nrefused fault\nrefused halted\nrefused halted\ntile 188\n",
        &HEAD,
        &[0xF4, 0x01],
    ];
    is_joined(written, &halted)
}

/// The version at which the store opens again after the call of this number failed in its second
/// publication, and whether the source can be given anew then; none where the call is no such call.
fn version_after_failed(alloc: Global, call: u64) -> Result<Option<(u32, bool)>, Fail> {
    let mut disk = new_disk(alloc, call)?;
    let (_, output) = run(alloc, &mut disk, FAILING)?;
    if !is_halted(output.written()) {
        return Ok(None);
    }
    let version = opens_at(alloc, &mut disk)?.ok_or("the store doesn't open at a version")?;
    let (_, output) = run(alloc, &mut disk, SECOND)?;
    let anew: &[u8] = if version == 1 {
        b"source 1\nbegun 2 3\npublished 2\n"
    } else {
        b"source 1\nbegun 3 3\npublished 3\n"
    };
    Ok(Some((version, output.written() == anew)))
}

/// Each single call of the second publication fails: its first sync of a file is one of them. Only where
/// the sync behind the rename of the head failed is the next opening at the second version.
#[test]
fn a_publication_fails_at_each_call(rt: HostRuntime) -> Result<(), Fail> {
    let (mut first, mut second) = (0u64, 0u64);
    for call in 1..400 {
        if let Some((version, anew)) = version_after_failed(rt.alloc(), call)? {
            assert!(rt; anew);
            if version == 1 {
                first = first.saturating_add(1);
            } else {
                second = second.saturating_add(1);
            }
        }
    }
    assert!(rt; first > 30);
    assert_eq!(rt; second, 1);
    Ok(())
}
