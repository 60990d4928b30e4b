//! Lines that are refused, each with its own words, the first that applies.

use crate::script::{Row, is_answered};
use std::test::Fail;

/// Scripts with lines that are refused.
static REFUSALS: [Row; 7] = [
    // Lines that aren't of the grammar, and none of them changes a store.
    Row {
        script: b"inline elev 0 46\nopen \n open\nopen\r\nstep\nclose x\ntile 1\nstep  all\nversions 1\n",
        answers: &[
            b"refused syntax\nrefused syntax\nrefused syntax\nrefused syntax\nrefused syntax\nrefused syntax\nrefused syntax\nrefused syntax\nrefused syntax\n",
        ],
        reopened: b"versions\n",
        again: &[b"versions 0\n"],
    },
    // File names that aren't tiles', whether the session is open or not.
    Row {
        script: b"tile 1 N50E007_D001_S001_T001_LC10_U0_R0.tif\ntile 1 N46E007_D001_S001_T001_LC10_U0_R0.tif\nclose 9\n",
        answers: &[b"refused name 3\nrefused session\nrefused session\n"],
        reopened: b"open\ntile 1 N50E007_D001_S001_T001_LC10_U0_R0.tif\ntile 1 N46E007_D001_S001_T001_L01_U01_R0.tif\ntile 1 N46E007_D001_S001_T001_LC11_U0_R0.tif\n",
        again: &[b"session 1 0\nrefused name 3\nrefused name 26\nrefused name 22\n"],
    },
    // Nothing to publish and no step to make, and no step of none.
    Row {
        script: b"publish\nstep 0\nstep 1\nstep all\ninline elev -10 46 7 1 1 1 1 5\npublish\nstep 0\n",
        answers: &[
            b"refused nothing\nrefused nothing\nrefused nothing\nrefused nothing\nsource 1\nbegun 1 3\nrefused range\n",
        ],
        reopened: b"publish\nstep 0\nversions\n",
        again: &[b"refused nothing\nrefused nothing\nversions 0\n"],
    },
    // While a publication is going, no other begins and no source is taken, whatever it is.
    Row {
        script: b"inline elev -10 46 7 1 1 1 1 5\npublish\npublish\ninline elev -10 46 7 1 1 1 1 5\ninline elev 24 46 7 1 1 1 1 5\nsource elev 1 47 11 1 1 0 a.tif\nstep all\nstep all\n",
        answers: &[
            b"source 1\nbegun 1 3\nrefused busy\nrefused busy\nrefused busy\nrefused busy\npublished 1\nrefused nothing\n",
        ],
        reopened: b"versions\npublish\n",
        again: &[b"versions 1\nrefused nothing\n"],
    },
    // Numbers that are out of range: a level, a step of no whole number of units, too few posts, a
    // step of 0, a denominator of 0, a box past the pole, too many posts, a post, no rows, and materials.
    Row {
        script: b"inline elev 24 46 7 1 1 1 1 5\ninline elev 0 46 7 1/7 1 1 1 5\ninline elev 0 46 7 1 1 1 2 5\ninline elev 0 46 7 0 1 1 1 5\ninline elev 0 46/0 7 1 1 1 1 5\ninline elev 0 89 7 1 1 3 1 5 6 7\ninline elev 0 46 7 1 1 1 1 5 6\ninline elev 0 46 7 1 1 1 1 32768\ninline elev 0 46 7 1 1 0 1 5\n",
        answers: &[
            b"refused range\nrefused range\nrefused range\nrefused range\nrefused range\nrefused range\nrefused range\nrefused range\nrefused range\n",
        ],
        reopened: b"inline mat -10 46 7 1 1 1 1 256\ninline mat -10 46 7 1 1 1 1 -1\ninline mat -10 46 7 1 1 1 1 255\n",
        again: &[b"refused range\nrefused range\nsource 1\n"],
    },
    // A closed session isn't served, and its number isn't given again in this opening.
    Row {
        script: b"open\nopen\nclose 1\nclose 1\ntile 1 N46E007_D001_S001_T001_LC10_U0_R0.tif\ntile 2 N46E007_D001_S001_T001_LC10_U0_R0.tif\nopen\nversions\n",
        answers: &[
            b"session 1 0\nsession 2 0\nclosed\nrefused session\nrefused session\nmissing\nsession 3 0\nversions 0\n",
        ],
        reopened: b"close 2\nopen\n",
        again: &[b"refused session\nsession 1 0\n"],
    },
    // Publications that are too large stay pending, but not in the next opening.
    Row {
        script: b"inline elev 12 46 7 1 1 1 2 5 6\npublish\npublish\ninline elev -10 46 7 1 1 1 1 5\npublish\n",
        answers: &[
            b"source 1\nrefused large 24672\nrefused large 24672\nsource 2\nrefused large 24675\n",
        ],
        reopened: b"publish\ninline elev 11 46 7 1 1 1 2 5 6\npublish\n",
        again: &[b"refused nothing\nsource 1\nbegun 1 12381\n"],
    },
];

#[test]
fn refusals_come_in_order(rt: HostRuntime) -> Result<(), Fail> {
    for row in REFUSALS.iter() {
        assert!(rt; is_answered(rt.alloc(), row)?);
    }
    Ok(())
}
