//! Runs with other words, which say how many steps follow each line; and stores that aren't.

use crate::script::{BY_HAND, is_joined, new_disk, run_with};
use cdb_memfiles::MemShelf;
use std::alloc::Global;
use std::collections::BTreeMap;
use std::test::Fail;

/// Words, a script over an empty disk, and what is written and the exit status.
#[derive(Drop)]
struct Worded {
    words: &'static [&'static str],
    script: &'static [u8],
    written: &'static [&'static [u8]],
    code: u8,
}

static WORDED: [Worded; 7] = [
    // One step after each line, which is what no words ask for: the ninth comes after the eighth `versions`.
    Worded {
        words: &[],
        script: b"inline elev -10 46 7 1 1 1 1 500\npublish\nversions\nversions\nversions\nversions\nversions\nversions\nversions\nversions\nversions\n",
        written: &[
            b"source 1\nbegun 1 3\nversions 0\nversions 0\nversions 0\nversions 0\nversions 0\nversions 0\nversions 0\nversions 0\n",
            b"published 1\nversions 1\n",
        ],
        code: 0,
    },
    // Two steps after each line, refused ones and blank ones among them: the line `publish` makes two.
    Worded {
        words: &["--background", "2"],
        script: b"inline elev -10 46 7 1 1 1 1 500\npublish\nversions\n\nversions\nversions\nversions\nversions\n",
        written: &[
            b"source 1\nbegun 1 3\nversions 0\nversions 0\nversions 0\nversions 0\n",
            b"published 1\nversions 1\n",
        ],
        code: 0,
    },
    // None follows a line `step`; eight are left to it, and 64 steps follow the next line.
    Worded {
        words: &["--mode=run", "--background=1"],
        script: b"inline elev -10 46 7 1 1 1 1 500\npublish\nstep 7\nstep 0\nversions",
        written: &[b"source 1\nbegun 1 3\ngoing\nrefused range\nversions 0\npublished 1\n"],
        code: 0,
    },
    Worded {
        words: &["--background", "64"],
        script: b"inline elev -10 46 7 1 1 1 1 500\npublish\nno line\n",
        written: &[b"source 1\nbegun 1 3\npublished 1\nrefused syntax\n"],
        code: 0,
    },
    // Words that aren't options of the program.
    Worded {
        words: &["--mode", "fly"],
        script: b"versions\n",
        written: &[b"cdb: usage\n"],
        code: 2,
    },
    Worded {
        words: &["--background", "65"],
        script: b"versions\n",
        written: &[b"cdb: usage\n"],
        code: 2,
    },
    Worded {
        words: &["--help"],
        script: b"versions\n",
        written: &[b"cdb: usage\n"],
        code: 2,
    },
];

#[test]
fn words_are_followed(rt: HostRuntime) -> Result<(), Fail> {
    for row in WORDED.iter() {
        let mut disk = new_disk(rt.alloc(), 0)?;
        let mut shelf = MemShelf::new(BTreeMap::new(rt.alloc()), Vec::new(rt.alloc()));
        let (status, output) = run_with(rt.alloc(), row.words, &mut disk, &mut shelf, row.script)?;
        assert_eq!(rt; status.code(), row.code);
        assert!(rt; is_joined(output.written(), row.written));
    }
    Ok(())
}
