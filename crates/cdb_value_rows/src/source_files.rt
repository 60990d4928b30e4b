//! The files of sources.
use cdb_grid::{Arc, Level};
use cdb_source::{
    DecodeError, Kind, SourceHead, decode, decode_head, decode_posts, encode_head, encode_row,
};
use std::alloc::Global;
use std::test::Fail;

/// The file of one post of 500 metres at N46E007, at level -10 with steps of one degree, and one
/// byte more.
const FILE: [u8; 55] = [
    0x43, 0x44, 0x42, 0x53, 0x52, 0x43, 0x31, 0x0A, // CDBSRC1 and a line feed
    0x01, 0xF6, 0x00, 0x00, 0x00, 0x00, 0x00, 0x01, 0x00, 0x00, 0x00, 0x01, // kind to columns
    0x00, 0x05, 0xAF, 0x78, 0x00, 0x00, 0x00, 0x00, // latitude
    0x00, 0x00, 0xDD, 0x7C, 0x00, 0x00, 0x00, 0x00, // longitude
    0x00, 0x00, 0x1F, 0xA4, 0x00, 0x00, 0x00, 0x00, // step in latitude
    0x00, 0x00, 0x1F, 0xA4, 0x00, 0x00, 0x00, 0x00, // step in longitude
    0x01, 0xF4, // the post
    0x00,
];

#[test]
fn the_worked_file(rt: HostRuntime) -> Result<(), Fail> {
    let source = decode(rt.alloc(), &FILE[..54])?;
    let level = Level::new(-10).ok_or("level")?;
    let step = Arc::of_fraction(1, 1).ok_or("step")?;
    let lat = Arc::of_fraction(46, 1).ok_or("lat")?;
    let lon = Arc::of_fraction(7, 1).ok_or("lon")?;
    let head = SourceHead::new(Kind::Elevation, level, lat, lon, step, step, 1, 1).ok_or("head")?;
    assert_eq!(rt; source.head, head);
    assert_eq!(rt; source.posts.as_slice(), [500].as_slice());
    let front = encode_head(&head);
    assert_eq!(rt; front.as_slice(), FILE.split_at(52).0);
    assert_eq!(rt; decode_head(&front), Some(head));
    let mut row = [0; 2];
    if source.head.rows != 1 || source.head.cols != 1 {
        return Err("one row and one column".into());
    }
    encode_row(&source, 0, &mut row);
    assert_eq!(rt; row.as_slice(), [0x01, 0xF4].as_slice());
    Ok(())
}

/// Where the first bad part begins in so many bytes of the worked file, one of them changed.
fn first_bad(
    alloc: Global,
    length: usize,
    at: usize,
    byte: u8,
) -> Result<Option<DecodeError>, Fail> {
    if length > 55 || at >= 55 {
        return Err("row".into());
    }
    let mut bytes = FILE;
    bytes[at] = byte;
    Ok(decode(alloc, &bytes[..length]).err())
}

#[test]
fn changed_files(rt: HostRuntime) -> Result<(), Fail> {
    // so many bytes, the place of the changed byte and what it becomes, and the first bad place
    let table = [
        (0, 0, 0x43, 0),
        (7, 0, 0x43, 0),
        (54, 6, 0x32, 0),
        (54, 7, 0x0D, 0),
        (8, 0, 0x43, 8),
        (51, 0, 0x43, 8),
        // the kind, the level, the two zero bytes, rows and a step
        (54, 8, 0, 8),
        (54, 8, 3, 8),
        (54, 9, 24, 8),
        (54, 9, 0xF5, 8),
        (54, 10, 1, 8),
        (54, 11, 1, 8),
        (54, 15, 0, 8),
        (54, 12, 1, 8),
        (54, 28, 0x80, 8),
        // posts that aren't whole, a number that is no material, and a byte too many
        (52, 0, 0x43, 52),
        (53, 0, 0x43, 52),
        (54, 15, 2, 52),
        (54, 8, 2, 52),
        (55, 0, 0x43, 54),
    ];
    for (length, at, byte, place) in table {
        assert_eq!(rt;
            first_bad(rt.alloc(), length, at, byte)?,
            Some(DecodeError::Bad { place }),
            "{} bytes, byte {} is {}",
            length,
            at,
            byte
        );
    }
    Ok(())
}

#[test]
fn posts_of_runs(rt: HostRuntime) {
    // the same six bytes as posts of each kind: 500, -32768 and 255
    for (kind, posts) in [
        (Kind::Elevation, [500, -32768, 255]),
        (Kind::Material, [0, 0, 255]),
    ] {
        let mut to = [7; 3];
        decode_posts(kind, &[0x01, 0xF4, 0x80, 0x00, 0x00, 0xFF], &mut to);
        assert_eq!(rt; to, posts);
    }
}

#[test]
fn posts_of_material(rt: HostRuntime) -> Result<(), Fail> {
    // so many bytes of a file of two posts, the posts, and the first bad place
    let table = [
        (56, [0, 255, 0, 0], None),
        (56, [0, 255, 1, 0], Some(54)),
        (56, [255, 255, 1, 0], Some(52)),
        (55, [0, 255, 1, 0], Some(52)),
        (57, [0, 255, 1, 0], Some(54)),
        (57, [0, 255, 0, 0], Some(56)),
    ];
    for (length, posts, place) in table {
        let mut bytes = [0; 57];
        bytes[..52].copy_from_slice(FILE.split_at(52).0);
        bytes[8] = 2;
        bytes[19] = 2;
        bytes[52..56].copy_from_slice(&posts);
        let wrong = decode(rt.alloc(), bytes.split_at(length).0).err();
        assert_eq!(rt;
            wrong,
            place.map(|place| DecodeError::Bad { place }),
            "{} bytes",
            length
        );
    }
    Ok(())
}
