//! Files that are refused, with the cause and its byte.
use super::files::{Bytes, LITTLE, SMALL, read, read_changed};
use std::test::Fail;

/// What is changed, the file and its changes, and the text of the cause.
static CHANGED: [(&str, &[u8], Bytes, &str); 36] = [
    ("another header", LITTLE, &[(0, 0)], "nottiff 0"),
    ("bytes 2 to 3 are 2B 00", LITTLE, &[(2, 0x2b)], "bigtiff 2"),
    ("a directory past the end", LITTLE, &[(6, 1)], "directory 4"),
    ("three entries too many", LITTLE, &[(8, 18)], "directory 4"),
    ("tag 257 made 256", LITTLE, &[(22, 0)], "order 22"),
    (
        "tag 258 made 255",
        LITTLE,
        &[(34, 255), (35, 0)],
        "order 34",
    ),
    (
        "type of 256 made 5, last tag made 0",
        LITTLE,
        &[(12, 5), (178, 0), (179, 0)],
        "order 178",
    ),
    ("type of 256 made 5", LITTLE, &[(12, 5)], "kind 10"),
    ("no width", LITTLE, &[(14, 0)], "kind 10"),
    (
        "the offsets' place past the end",
        LITTLE,
        &[(78, 211)],
        "kind 70",
    ),
    (
        "tag 284 made 322, type of 339 made 5",
        LITTLE,
        &[(118, 0x42), (132, 5)],
        "kind 130",
    ),
    ("tag 284 made 322", LITTLE, &[(118, 0x42)], "tiled 118"),
    ("tag 284 made 325", LITTLE, &[(118, 0x45)], "tiled 118"),
    (
        "tag 256 made 255",
        LITTLE,
        &[(10, 255), (11, 0)],
        "absent 256 8",
    ),
    (
        "tags 257 to 259 made 258 to 260",
        LITTLE,
        &[(22, 2), (34, 3), (46, 4)],
        "absent 257 8",
    ),
    ("tag 273 made 274", LITTLE, &[(70, 0x12)], "absent 273 8"),
    ("tag 279 made 280", LITTLE, &[(106, 0x18)], "absent 279 8"),
    (
        "tags 273 and 279 made 274 and 280",
        LITTLE,
        &[(70, 0x12), (106, 0x18)],
        "absent 273 8",
    ),
    ("compression 5", LITTLE, &[(54, 5)], "compressed 46"),
    (
        "compression 5, samples 3",
        LITTLE,
        &[(54, 5), (90, 3)],
        "compressed 46",
    ),
    ("samples 3", LITTLE, &[(90, 3)], "samples 82"),
    ("format 3", LITTLE, &[(138, 3)], "float 130"),
    ("format 4", LITTLE, &[(138, 4)], "bits 8"),
    ("bits 12", LITTLE, &[(42, 12)], "bits 8"),
    ("fill order 2", LITTLE, &[(58, 0x0a), (66, 2)], "bits 8"),
    ("width 0", LITTLE, &[(18, 0)], "size 8"),
    (
        "length 65,537",
        LITTLE,
        &[(24, 4), (30, 1), (32, 1)],
        "size 8",
    ),
    (
        "length 65,536",
        LITTLE,
        &[(24, 4), (30, 0), (32, 1)],
        "strips 70",
    ),
    (
        "65,536 by 257",
        SMALL,
        &[(18, 4), (24, 0), (26, 1), (36, 1), (37, 1)],
        "size 14",
    ),
    ("rows per strip 0", LITTLE, &[(102, 0)], "strips 70"),
    ("rows per strip 2", LITTLE, &[(102, 2)], "strips 70"),
    ("one offset", LITTLE, &[(74, 1)], "strips 70"),
    ("one byte count", LITTLE, &[(110, 1)], "strips 70"),
    (
        "3 bytes in the second strip",
        LITTLE,
        &[(206, 3)],
        "strips 70",
    ),
    (
        "second strip's offset 215",
        LITTLE,
        &[(198, 215)],
        "short 215",
    ),
    (
        "both strips past the end",
        LITTLE,
        &[(194, 255), (198, 255), (201, 255)],
        "short 255",
    ),
];

#[test]
fn changed_files(rt: HostRuntime) -> Result<(), Fail> {
    for (name, file, changes, wanted) in CHANGED.iter() {
        let mut pixels = [0; 6];
        match read_changed(rt.alloc(), file, changes, &mut pixels)? {
            Some(error) => {
                let text = format!(in rt.alloc(); "{error}")?;
                assert_eq!(rt; text.as_str(), *wanted, "{name}");
            }
            None => assert!(rt; false, "{name} is read"),
        }
    }
    Ok(())
}

#[test]
fn cut_files(rt: HostRuntime) -> Result<(), Fail> {
    let cases: [(&[u8], usize, &str); 5] = [
        (LITTLE, 0, "nottiff 0"),
        (LITTLE, 7, "nottiff 0"),
        (LITTLE, 193, "directory 4"),
        (LITTLE, 217, "short 214"),
        (SMALL, 79, "directory 4"),
    ];
    for (file, length, wanted) in cases {
        assert!(rt; length <= file.len());
        let mut pixels = [0; 6];
        match read(&file[..length], &mut pixels) {
            Some(error) => {
                let text = format!(in rt.alloc(); "{error}")?;
                assert_eq!(rt; text.as_str(), wanted, "at {length}");
            }
            None => assert!(rt; false, "cut at {length} is read"),
        }
    }
    Ok(())
}
