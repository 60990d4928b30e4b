//! Files that are read.
use super::files::{BIG, Bytes, LITTLE, SMALL, read, read_changed};
use std::test::Fail;

/// The pixels of `LITTLE` and `BIG`, row by row.
const PIXELS: [i32; 4] = [30, 40, 10, 20];

/// What is changed, the file and its changes, after which it has the same pixels.
static SAME: [(&str, &[u8], Bytes); 26] = [
    ("little endian", LITTLE, &[]),
    ("big endian", BIG, &[]),
    (
        "one strip",
        LITTLE,
        &[(74, 1), (78, 210), (102, 2), (110, 1), (114, 8)],
    ),
    (
        "one strip, big endian",
        BIG,
        &[(77, 1), (81, 210), (103, 2), (113, 1), (117, 8)],
    ),
    (
        "more rows in a strip than in the image",
        LITTLE,
        &[(74, 1), (78, 210), (102, 200), (110, 1), (114, 8)],
    ),
    ("width as BYTE", LITTLE, &[(12, 1)]),
    ("width as LONG", LITTLE, &[(12, 4)]),
    ("length as BYTE", LITTLE, &[(24, 1)]),
    ("length as LONG", LITTLE, &[(24, 4)]),
    ("bits as BYTE", LITTLE, &[(36, 1)]),
    ("bits as LONG", LITTLE, &[(36, 4)]),
    ("compression as BYTE", LITTLE, &[(48, 1)]),
    ("compression as LONG", LITTLE, &[(48, 4)]),
    ("fill order as SHORT", LITTLE, &[(58, 0x0a)]),
    ("fill order as BYTE", LITTLE, &[(58, 0x0a), (60, 1)]),
    ("fill order as LONG", LITTLE, &[(58, 0x0a), (60, 4)]),
    ("offsets as BYTE", LITTLE, &[(72, 1), (78, 210), (79, 214)]),
    ("offsets as SHORT", LITTLE, &[(72, 3), (78, 210), (80, 214)]),
    ("samples as BYTE and LONG", LITTLE, &[(84, 1), (132, 4)]),
    (
        "samples as LONG, format as BYTE",
        LITTLE,
        &[(84, 4), (132, 1)],
    ),
    ("rows per strip as BYTE", LITTLE, &[(96, 1)]),
    ("rows per strip as LONG", LITTLE, &[(96, 4)]),
    (
        "byte counts as BYTE",
        LITTLE,
        &[(108, 1), (114, 4), (115, 4)],
    ),
    (
        "byte counts as SHORT",
        LITTLE,
        &[(108, 3), (114, 4), (116, 4)],
    ),
    ("the first of two values", LITTLE, &[(38, 2), (44, 8)]),
    (
        "a strip longer than its need",
        LITTLE,
        &[(202, 5), (206, 200)],
    ),
];

#[test]
fn same_image(rt: HostRuntime) -> Result<(), Fail> {
    for (name, file, changes) in SAME.iter() {
        let mut pixels = [0; 4];
        let error = read_changed(rt.alloc(), file, changes, &mut pixels)?;
        assert_eq!(rt; error, None, "{name}");
        assert_eq!(rt; pixels, PIXELS, "{name}");
    }
    Ok(())
}

/// What the samples are, the file and its changes, and the pixels.
static OTHER: [(&str, &[u8], Bytes, [i32; 6]); 8] = [
    ("8 bits, unsigned", SMALL, &[], [0, 1, 127, 128, 254, 255]),
    (
        "8 bits, big endian",
        BIG,
        &[(43, 8), (213, 9)],
        [0, 30, 0, 10, 0, 0],
    ),
    (
        "8 bits, signed",
        LITTLE,
        &[(42, 8), (210, 128), (211, 255)],
        [-128, -1, 10, 0, 0, 0],
    ),
    (
        "16 bits, unsigned",
        LITTLE,
        &[(138, 1), (211, 128)],
        [32798, 40, 10, 20, 0, 0],
    ),
    (
        "16 bits, negative",
        LITTLE,
        &[(211, 128), (213, 255)],
        [-32738, -216, 10, 20, 0, 0],
    ),
    (
        "16 bits, negative, big endian",
        BIG,
        &[(210, 128), (212, 255)],
        [-32738, -216, 10, 20, 0, 0],
    ),
    (
        "strips in another order",
        LITTLE,
        &[(194, 214), (198, 210)],
        [10, 20, 30, 40, 0, 0],
    ),
    (
        "one strip, twice",
        LITTLE,
        &[(198, 210)],
        [30, 40, 30, 40, 0, 0],
    ),
];

#[test]
fn other_samples(rt: HostRuntime) -> Result<(), Fail> {
    for (name, file, changes, wanted) in OTHER.iter() {
        let mut pixels = [0; 6];
        let error = read_changed(rt.alloc(), file, changes, &mut pixels)?;
        assert_eq!(rt; error, None, "{name}");
        assert_eq!(rt; pixels, *wanted, "{name}");
    }
    Ok(())
}

/// The changes that make the image of `SMALL` 65,536 pixels wide and 256 long, with its strip behind
/// the directory.
const WIDE: Bytes = &[
    (18, 4),
    (24, 0),
    (26, 1),
    (36, 0),
    (37, 1),
    (60, 80),
    (72, 0),
    (75, 1),
];

#[test]
fn wide(rt: HostRuntime) -> Result<(), Fail> {
    let mut bytes = vec![in rt.alloc(); 0u8; 80 + 16_777_216]?;
    for (at, byte) in SMALL.iter().enumerate() {
        if at < bytes.len() {
            bytes[at] = *byte;
        }
    }
    let last = 80 + 16_777_215;
    for (at, byte) in [(last, 7)].iter().chain(WIDE) {
        if *at < bytes.len() {
            bytes[*at] = *byte;
        }
    }
    let mut pixels = vec![in rt.alloc(); 0; 16_777_216]?;
    let error = read(bytes.as_slice(), pixels.as_mut_slice());
    assert_eq!(rt; error, None);
    assert_eq!(rt; pixels.as_slice().last().copied(), Some(7));
    Ok(())
}
