//! A source whose file is taken away between two steps.

use crate::script::{new_disk, run};
use arrayvec::ArrayVec;
use cdb_engine::{AdvanceError, Engine, InlineOrder, Kind, Progress, PublishError};
use cdb_files::Disk;
use cdb_grid::Fraction;
use cdb_memfiles::MemDisk;
use cdb_names::source_path;
use std::alloc::Global;
use std::test::Fail;

/// A number of whole degrees.
fn degrees(n: i64) -> Fraction {
    Fraction { n, d: 1 }
}

/// One post at 46 degrees north and 7 east, of the coarsest level.
fn one_post() -> Result<InlineOrder, Fail> {
    let mut posts = ArrayVec::new();
    if posts.try_push(500).is_err() {
        return Err("post".into());
    }
    Ok(InlineOrder {
        kind: Kind::Elevation,
        level: -10,
        lat: degrees(46),
        lon: degrees(7),
        dlat: degrees(1),
        dlon: degrees(1),
        rows: 1,
        cols: 1,
        posts,
    })
}

/// Opens the store of a disk.
fn open(alloc: Global, disk: &mut MemDisk) -> Result<Engine, Fail> {
    match Engine::open(alloc, disk) {
        Ok(engine) => Ok(engine),
        Err(_) => Err("open".into()),
    }
}

/// Submits a source of one post.
fn submit(alloc: Global, engine: &mut Engine) -> Result<(), Fail> {
    let Ok(source) = engine.inline(alloc, &one_post()?) else {
        return Err("source".into());
    };
    if engine.ready().is_err() {
        return Err("ready".into());
    }
    if engine.submit(source).is_err() {
        return Err("submit".into());
    }
    Ok(())
}

/// Begins a publication, and says how that was refused.
fn publish(alloc: Global, engine: &mut Engine, disk: &mut MemDisk) -> Option<PublishError> {
    engine.publish(alloc, disk).err()
}

/// Makes a step.
fn step(engine: &mut Engine, disk: &mut MemDisk) -> Result<Progress, AdvanceError> {
    engine.step(disk)
}

/// An engine that has made the first step of a publication, whose source file is taken away then.
fn rob(alloc: Global, disk: &mut MemDisk) -> Result<Engine, Fail> {
    let mut engine = open(alloc, disk)?;
    submit(alloc, &mut engine)?;
    if publish(alloc, &mut engine, disk).is_some() {
        return Err("publish".into());
    }
    if step(&mut engine, disk) != Ok(Progress::Going) {
        return Err("step".into());
    }
    disk.remove(&source_path(1, 1))?;
    Ok(engine)
}

/// The step after the first reads the source's file and finds that it is gone; no step follows it.
const STEPS: [Result<Progress, AdvanceError>; 2] = [
    Err(AdvanceError::Damaged {
        expected: 54,
        found: None,
    }),
    Err(AdvanceError::Halted),
];

#[test]
fn a_source_that_is_gone_halts_the_writer(rt: HostRuntime) -> Result<(), Fail> {
    let mut disk = new_disk(rt.alloc(), 0)?;
    let mut engine = rob(rt.alloc(), &mut disk)?;
    for answer in STEPS {
        assert_eq!(rt; step(&mut engine, &mut disk), answer);
    }
    assert_eq!(rt;
        publish(rt.alloc(), &mut engine, &mut disk),
        Some(PublishError::Halted)
    );
    let (_, output) = run(rt.alloc(), &mut disk, b"versions\n")?;
    assert_eq!(rt; output.written(), b"versions 0\n".as_slice());
    Ok(())
}
