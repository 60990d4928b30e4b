//! Stores that two stops leave, one after the other, and that go on to publish.

use crate::script::{BY_HAND, check, new_disk, run, run_worded};
use crate::stops::PICKS;
use crate::store::{contents, path};
use cdb_files::Disk;
use cdb_front::MemOutput;
use cdb_memfiles::{Fuse, MemDisk, Pick};
use std::alloc::Global;
use std::test::Fail;

/// Four publications, of which the last is for a store that no stop comes to any more: the words of a run that
/// makes so many of them, from none on; the lines that ask for each; what is written where one of the first
/// three is begun, and where it is published; what a check writes once there are four; and how many calls are
/// between two stops of the second run.
#[derive(Drop)]
struct Publications {
    words: [&'static [&'static str]; 5],
    lines: [&'static [u8]; 4],
    begun: [&'static str; 3],
    published: [&'static str; 3],
    checked: &'static [u8],
    apart: u64,
}

static PUBLICATIONS: [Publications; 2] = [
    // All over one geocell, the second of materials too.
    Publications {
        words: [&BY_HAND, &BY_HAND, &BY_HAND, &BY_HAND, &BY_HAND],
        lines: [
            b"inline elev -9 46 7 1/2 1/2 2 2 30 40 10 20\npublish\nstep all\n",
            b"inline mat -9 46 7 1/2 1/2 2 2 3 5 5 3\ninline elev -10 46 7 1 1 1 1 99\npublish\nstep all\n",
            b"inline elev -9 46 7 1/2 1/2 1 2 -5 600\npublish\nstep all\n",
            b"inline elev -10 46 7 1 1 1 1 500\npublish\nstep all\n",
        ],
        begun: ["begun 1 ", "begun 2 ", "begun 3 "],
        published: ["published 1\n", "published 2\n", "published 3\n"],
        checked: b"agrees 4 29\n",
        apart: 30,
    },
    // Drawn ones, for which no line asks. Where one is begun nothing is written, so that each may be.
    Publications {
        words: [
            &BY_HAND,
            &[
                "--mode",
                "generate",
                "--start",
                "4097749663",
                "--count",
                "1",
            ],
            &[
                "--mode",
                "generate",
                "--start",
                "4097749663",
                "--count",
                "2",
            ],
            &[
                "--mode",
                "generate",
                "--start",
                "4097749663",
                "--count",
                "3",
            ],
            &[
                "--mode",
                "generate",
                "--start",
                "4097749663",
                "--count",
                "4",
            ],
        ],
        lines: [b"", b"", b"", b""],
        begun: ["", "", ""],
        published: ["versions 1\n", "versions 2\n", "versions 3\n"],
        checked: b"agrees 4 ",
        apart: 90,
    },
];

/// The heads of stores whose newest version is the first, the second, and so on.
static HEADS: [&[u8]; 4] = [b"1\n", b"2\n", b"3\n", b"4\n"];

/// The version that the head of a store names, or 0 where there is no head.
fn version_of(alloc: Global, disk: &mut MemDisk) -> Result<usize, Fail> {
    let Some(bytes) = contents(alloc, disk, &path("HEAD")?)? else {
        return Ok(0);
    };
    for (number, head) in HEADS.iter().enumerate() {
        if bytes.as_slice() == *head {
            return Ok(number.saturating_add(1));
        }
    }
    Err("the head names no version".into())
}

/// Makes the publications that are missing from one version to another.
fn publish<D: Disk>(
    alloc: Global,
    publications: &Publications,
    disk: &mut D,
    from: usize,
    to: usize,
) -> Result<MemOutput, Fail> {
    let missing = to.saturating_sub(from);
    let words = publications.words.get(missing).ok_or("words")?;
    let mut script = Vec::new(alloc);
    for lines in publications.lines.iter().take(to).skip(from) {
        script.extend_from_slice(lines)?;
    }
    let (_, output) = run_worded(alloc, words, disk, script.as_slice())?;
    Ok(output)
}

/// The number from 1 of the last of these texts that is written, or 0.
fn last_written(written: &[u8], texts: &[&str]) -> Result<usize, Fail> {
    let Ok(written) = str::from_utf8(written) else {
        return Err("what is written is no text".into());
    };
    let mut last = 0usize;
    for (number, text) in texts.iter().enumerate() {
        if written.contains(*text) {
            last = number.saturating_add(1);
        }
    }
    Ok(last)
}

/// Makes the publications that are missing up to the third, over a disk that is cut off after so many calls:
/// what a crash leaves, and whether the third was published. The version that is left is one that was begun,
/// and none before one that was published or was there before.
fn stop(
    alloc: Global,
    publications: &Publications,
    disk: MemDisk,
    calls: u64,
    pick: Pick,
) -> Result<(MemDisk, bool), Fail> {
    let mut disk = disk;
    let before = version_of(alloc, &mut disk)?;
    let mut fuse = Fuse::new(disk, calls);
    let output = publish(alloc, publications, &mut fuse, before, 3)?;
    let mut left = fuse.disk().crash(pick)?;
    let after = version_of(alloc, &mut left)?;
    let published = before.max(last_written(output.written(), &publications.published)?);
    let begun = before.max(last_written(output.written(), &publications.begun)?);
    if after < published || begun < after {
        return Err("the version that is left".into());
    }
    Ok((left, published == 3))
}

/// By how many versions there are: what a run writes that is asked for it, and what a check begins with.
static SAID: [(&[u8], &[u8]); 5] = [
    (b"versions 0\n", b"agrees 0 "),
    (b"versions 1\n", b"agrees 1 "),
    (b"versions 2\n", b"agrees 2 "),
    (b"versions 3\n", b"agrees 3 "),
    (b"versions 4\n", b"agrees 4 "),
];

/// Whether a run and a check write that there are so many versions.
fn says(version: usize, answer: &[u8], checked: &[u8]) -> bool {
    match SAID.get(version) {
        Some((opened, agreed)) => answer == *opened && checked.starts_with(agreed),
        None => false,
    }
}

/// Whether the store opens at the version that its head names, and all its files agree; and once all that is
/// missing is published, they agree again.
fn goes_on(alloc: Global, publications: &Publications, disk: &mut MemDisk) -> Result<bool, Fail> {
    let version = version_of(alloc, disk)?;
    let (_, answer) = run(alloc, disk, b"versions\n")?;
    let (_, checked) = check(alloc, disk)?;
    if !says(version, answer.written(), checked.written()) {
        return Ok(false);
    }
    publish(alloc, publications, disk, version, 4)?;
    let (_, checked) = check(alloc, disk)?;
    Ok(checked.written().starts_with(publications.checked))
}

/// One of what a crash may leave, by a number.
fn pick_of(number: u64) -> Pick {
    match number % 3 {
        0 => Pick::Newest,
        1 => Pick::Oldest,
        _ => Pick::Torn,
    }
}

/// Whether a run that is cut off after so many calls publishes all three; and how often the one after it is
/// cut off until it publishes what is missing. The store that both leave goes on each time.
fn stop_again(
    alloc: Global,
    publications: &Publications,
    calls: u64,
    pick: Pick,
) -> Result<(bool, u64), Fail> {
    let (mut all, mut stops) = (false, 0u64);
    for part in 0..1000u64 {
        let more = part
            .saturating_mul(publications.apart)
            .saturating_add(calls % 29);
        let again = pick_of(part.saturating_add(calls / 10));
        let (disk, three) = stop(alloc, publications, new_disk(alloc, 0)?, calls, pick)?;
        let (mut disk, rest) = stop(alloc, publications, disk, more, again)?;
        if !goes_on(alloc, publications, &mut disk)? {
            return Err("the store doesn't go on".into());
        }
        if rest {
            all = three;
            break;
        }
        stops = stops.saturating_add(1);
    }
    Ok((all, stops))
}

/// The first run is cut off at each tenth call, the second at some.
#[test]
fn stores_go_on_after_two_stops(rt: HostRuntime) -> Result<(), Fail> {
    for publications in PUBLICATIONS.iter() {
        for pick in PICKS {
            let mut ended = false;
            let mut stops = 0u64;
            for tenth in 0..200u64 {
                let calls = tenth.saturating_mul(10);
                let (all, more) = stop_again(rt.alloc(), publications, calls, pick)?;
                stops = stops.saturating_add(more);
                if all {
                    ended = true;
                    break;
                }
            }
            assert!(rt; ended && stops > 40);
        }
    }
    Ok(())
}
