//! Sources of one post, and the tiles that they give.

use crate::script::{HEAD, Row, is_answered};
use std::test::Fail;

/// Asks a store that is opened again for the tile of one geocell.
const ASK: &[u8] = b"versions\nopen\ntile 1 N46E007_D001_S001_T001_LC10_U0_R0.tif\n";

/// Scripts of sources of one post.
static SCRIPTS: [Row; 9] = [
    // Nothing is answered where nothing is asked.
    Row {
        script: b"",
        answers: &[],
        reopened: ASK,
        again: &[b"versions 0\nsession 1 0\nmissing\n"],
    },
    // The last line needs no line feed.
    Row {
        script: b"open\ntile 1 N46E007_D001_S001_T001_LC10_U0_R0.tif",
        answers: &[b"session 1 0\nmissing\n"],
        reopened: ASK,
        again: &[b"versions 0\nsession 1 0\nmissing\n"],
    },
    // One source, from the line to the tile's bytes.
    Row {
        script: b"inline elev -10 46 7 1 1 1 1 500\npublish\nstep all\nopen\ntile 1 N46E007_D001_S001_T001_LC10_U0_R0.tif\n",
        answers: &[
            b"source 1\nbegun 1 3\npublished 1\nsession 1 1\ntile 188\n",
            &HEAD,
            &[0xF4, 0x01],
        ],
        reopened: ASK,
        again: &[b"versions 1\nsession 1 1\ntile 188\n", &HEAD, &[0xF4, 0x01]],
    },
    // Its nine steps, eight and then one: one source, three tiles, three folders, the record and the head.
    Row {
        script: b"inline elev -10 46 7 1 1 1 1 500\npublish\nstep 8\nversions\nstep 1\nstep 1\nopen\ntile 1 N46E007_D001_S001_T001_LC10_U0_R0.tif\n",
        answers: &[
            b"source 1\nbegun 1 3\ngoing\nversions 0\npublished 1\nrefused nothing\nsession 1 1\ntile 188\n",
            &HEAD,
            &[0xF4, 0x01],
        ],
        reopened: ASK,
        again: &[b"versions 1\nsession 1 1\ntile 188\n", &HEAD, &[0xF4, 0x01]],
    },
    // A tile that is reached and has no value is there.
    Row {
        script: b"inline elev -10 46 7 1 1 1 1 -32768\npublish\nstep all\nopen\ntile 1 N46E007_D001_S001_T001_LC10_U0_R0.tif\n",
        answers: &[
            b"source 1\nbegun 1 3\npublished 1\nsession 1 1\ntile 188\n",
            &HEAD,
            &[0x00, 0x80],
        ],
        reopened: ASK,
        again: &[b"versions 1\nsession 1 1\ntile 188\n", &HEAD, &[0x00, 0x80]],
    },
    // A newer source without a value leaves the older one's.
    Row {
        script: b"inline elev -10 46 7 1 1 1 1 500\ninline elev -10 46 7 1 1 1 1 -32768\npublish\nstep all\nopen\ntile 1 N46E007_D001_S001_T001_LC10_U0_R0.tif\n",
        answers: &[
            b"source 1\nsource 2\nbegun 1 3\npublished 1\nsession 1 1\ntile 188\n",
            &HEAD,
            &[0xF4, 0x01],
        ],
        reopened: ASK,
        again: &[b"versions 1\nsession 1 1\ntile 188\n", &HEAD, &[0xF4, 0x01]],
    },
    // Two geocells have six files; numbers may have leading zeros, and no plus.
    Row {
        script: b"inline elev -10 -50 -180 1 1 1 1 -1\ninline elev -10 49 179 1 1 1 1 +1\ninline elev -010 049/1 0179 01 1/1 1 01 -01\npublish\nstep all\nopen\ntile 1 S50W180_D001_S001_T001_LC10_U0_R0.tif\n",
        answers: &[
            b"source 1\nrefused syntax\nsource 2\nbegun 1 6\npublished 1\nsession 1 1\ntile 188\n",
            &HEAD,
            &[0xFF, 0xFF],
        ],
        reopened: b"open\ntile 01 N49E179_D001_S001_T001_LC10_U0_R0.tif\n",
        again: &[b"session 1 1\ntile 188\n", &HEAD, &[0xFF, 0xFF]],
    },
    // A session stays at its version, also in the middle of a publication.
    Row {
        script: b"inline elev -10 46 7 1 1 1 1 500\npublish\nstep all\nopen\ntile 1 N46E007_D001_S001_T001_LC10_U0_R0.tif\ninline elev -10 46 7 1 1 1 1 600\npublish\nstep 4\ntile 1 N46E007_D001_S001_T001_LC10_U0_R0.tif\nstep all\ntile 1 N46E007_D001_S001_T001_LC10_U0_R0.tif\nopen\ntile 2 N46E007_D001_S001_T001_LC10_U0_R0.tif\n",
        answers: &[
            b"source 1\nbegun 1 3\npublished 1\nsession 1 1\ntile 188\n",
            &HEAD,
            &[0xF4, 0x01],
            b"source 1\nbegun 2 3\ngoing\ntile 188\n",
            &HEAD,
            &[0xF4, 0x01],
            b"published 2\ntile 188\n",
            &HEAD,
            &[0xF4, 0x01],
            b"session 2 2\ntile 188\n",
            &HEAD,
            &[0x58, 0x02],
        ],
        reopened: ASK,
        again: &[b"versions 2\nsession 1 2\ntile 188\n", &HEAD, &[0x58, 0x02]],
    },
    // Blank lines have no answer, nothing after `quit` is read, and what is going then is left.
    Row {
        script: b"\n\ninline elev -10 46 7 1 1 1 1 500\n\npublish\nstep 8\nquit\nstep 1\n",
        answers: &[b"source 1\nbegun 1 3\ngoing\n"],
        reopened: ASK,
        again: &[b"versions 0\nsession 1 0\nmissing\n"],
    },
];

#[test]
fn scripts_are_answered(rt: HostRuntime) -> Result<(), Fail> {
    for row in SCRIPTS.iter() {
        assert!(rt; is_answered(rt.alloc(), row)?);
    }
    Ok(())
}
