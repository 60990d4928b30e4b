//! Stores that runs of mode `generate` fill with publications that they draw.

use crate::script::{check, new_disk, run, run_worded};
use cdb_memfiles::MemDisk;
use std::alloc::Global;
use std::test::Fail;

/// The words of a run, what it writes and how it ends, and what a check of its store writes then.
#[derive(Drop)]
struct Fill {
    words: &'static [&'static str],
    written: &'static [u8],
    code: u8,
    checked: &'static [u8],
}

/// A script over an empty disk, and the runs after it.
#[derive(Drop)]
struct Filled {
    script: &'static [u8],
    fills: &'static [Fill],
}

static FILLED: [Filled; 6] = [
    // The same publication twice: the second run's comes after the first's, and has the same values.
    Filled {
        script: b"",
        fills: &[
            Fill {
                words: &["--mode", "generate", "--start", "1", "--count", "1"],
                written: b"versions 1\nfiles 54\nsum 853881\n",
                code: 0,
                checked: b"agrees 1 57\n",
            },
            Fill {
                words: &["--count=1", "--mode=generate"],
                written: b"versions 2\nfiles 54\nsum 853881\n",
                code: 0,
                checked: b"agrees 2 114\n",
            },
        ],
    },
    // Two publications; then four, which is what no words ask for, of which the first two are those again.
    Filled {
        script: b"",
        fills: &[
            Fill {
                words: &["--mode", "generate", "--count", "2"],
                written: b"versions 2\nfiles 90\nsum 2228274\n",
                code: 0,
                checked: b"agrees 2 95\n",
            },
            Fill {
                words: &["--mode", "generate"],
                written: b"versions 6\nfiles 282\nsum 9384916\n",
                code: 0,
                checked: b"agrees 6 387\n",
            },
        ],
    },
    // Elevations, materials, and finer elevations; then the first two of them again, below the third.
    Filled {
        script: b"",
        fills: &[
            Fill {
                words: &[
                    "--mode",
                    "generate",
                    "--start",
                    "4097749663",
                    "--count",
                    "3",
                ],
                written: b"versions 3\nfiles 49\nsum 604361\n",
                code: 0,
                checked: b"agrees 3 55\n",
            },
            Fill {
                words: &[
                    "--mode",
                    "generate",
                    "--start",
                    "4097749663",
                    "--count",
                    "2",
                ],
                written: b"versions 5\nfiles 25\nsum 156500\n",
                code: 0,
                checked: b"agrees 5 84\n",
            },
        ],
    },
    // Two posts of the least elevation are in the same geocell.
    Filled {
        script: b"inline elev -5 87/2 10 1/32 1/32 1 2 -32767 -32767\npublish\nstep all\n",
        fills: &[Fill {
            words: &[
                "--mode",
                "generate",
                "--start",
                "4097749663",
                "--count",
                "1",
            ],
            written: b"versions 2\nfiles 18\nsum -418796\n",
            code: 0,
            checked: b"agrees 2 40\n",
        }],
    },
    // The same two posts in a publication that was left in the middle, which is no version.
    Filled {
        script: b"inline elev -5 87/2 10 1/32 1/32 1 2 -32767 -32767\npublish\nstep 8\n",
        fills: &[Fill {
            words: &[
                "--mode",
                "generate",
                "--start",
                "4097749663",
                "--count",
                "1",
            ],
            written: b"versions 1\nfiles 18\nsum 203786\n",
            code: 0,
            checked: b"agrees 1 20\n",
        }],
    },
    // Words that are refused make no publication.
    Filled {
        script: b"inline elev -10 46 7 1 1 1 1 500\npublish\nstep all\n",
        fills: &[
            Fill {
                words: &["--mode", "generate", "--count", "0"],
                written: b"cdb: usage\n",
                code: 2,
                checked: b"agrees 1 5\n",
            },
            Fill {
                words: &[
                    "--mode",
                    "generate",
                    "--start",
                    "4294967296",
                    "--count",
                    "1",
                ],
                written: b"cdb: usage\n",
                code: 2,
                checked: b"agrees 1 5\n",
            },
        ],
    },
];

/// Whether a run over the disk writes and ends so, and the check after it writes what it should.
fn fills(alloc: Global, disk: &mut MemDisk, fill: &Fill) -> Result<bool, Fail> {
    let (status, output) = run_worded(alloc, fill.words, disk, b"")?;
    if status.code() != fill.code || output.written() != fill.written {
        return Ok(false);
    }
    let (_, output) = check(alloc, disk)?;
    Ok(output.written() == fill.checked)
}

#[test]
fn drawn_publications_fill_stores(rt: HostRuntime) -> Result<(), Fail> {
    for row in FILLED.iter() {
        let mut disk = new_disk(rt.alloc(), 0)?;
        run(rt.alloc(), &mut disk, row.script)?;
        for fill in row.fills.iter() {
            assert!(rt; fills(rt.alloc(), &mut disk, fill)?);
        }
    }
    Ok(())
}
