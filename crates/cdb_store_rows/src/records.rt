//! Records, and the head of a store.
use cdb_manifest::{
    Heads, Record, RecordError, Tiles, decode, encode, laws, read_head, write_head,
};
use std::alloc::Global;
use std::test::Fail;

/// The record of version 1, whose one source has one post at N46E007 at level -10, and one byte
/// more.
const RECORD: [u8; 113] = [
    0x43, 0x44, 0x42, 0x52, 0x45, 0x43, 0x31, 0x0A, // CDBREC1 and a line feed
    0x00, 0x00, 0x00, 0x01, 0x00, 0x00, 0x00, 0x01, 0x00, 0x00, 0x00, 0x03, // the three numbers
    0x01, 0xF6, 0x00, 0x00, 0x00, 0x00, 0x00, 0x01, 0x00, 0x00, 0x00, 0x01, // kind to columns
    0x00, 0x05, 0xAF, 0x78, 0x00, 0x00, 0x00, 0x00, // latitude
    0x00, 0x00, 0xDD, 0x7C, 0x00, 0x00, 0x00, 0x00, // longitude
    0x00, 0x00, 0x1F, 0xA4, 0x00, 0x00, 0x00, 0x00, // step in latitude
    0x00, 0x00, 0x1F, 0xA4, 0x00, 0x00, 0x00, 0x00, // step in longitude
    0x01, 0xF6, 0x2E, 0x00, 0x00, 0x07, 0x00, 0x00, 0x00, 0x00, 0x00, 0x00, 0x00, 0x00, 0x00, 0x00,
    0x02, 0xF6, 0x2E, 0x00, 0x00, 0x07, 0x00, 0x00, 0x00, 0x00, 0x00, 0x00, 0x00, 0x00, 0x00, 0x00,
    0x03, 0xF6, 0x2E, 0x00, 0x00, 0x07, 0x00, 0x00, 0x00, 0x00, 0x00, 0x00, 0x00, 0x00, 0x00, 0x00,
    0x00,
];

#[test]
fn the_worked_record(rt: HostRuntime) -> Result<(), Fail> {
    let item = decode(rt.alloc(), &RECORD[..112])?;
    assert_eq!(rt; item.version, 1);
    assert_eq!(rt; item.heads.as_slice().len(), 1);
    for head in item.heads.as_slice() {
        assert_eq!(rt; (head.rows, head.cols, head.level.number), (1, 1, -10));
    }
    assert_eq!(rt; item.tiles.as_slice().len(), 3);
    for tile in item.tiles.as_slice() {
        assert_eq!(rt; (tile.cell.lat, tile.cell.lon), (46, 7));
        assert_eq!(rt; (tile.up, tile.right, tile.level.number), (0, 0, -10));
    }
    let bytes = encode(rt.alloc(), &item)?;
    assert_eq!(rt; bytes.as_slice(), RECORD.split_at(112).0);
    laws::publications_have_records();
    laws::one_bad_place();
    laws::records_have_no_bad_place();
    laws::records_have_length();
    let Record {
        version: _,
        heads,
        tiles,
    } = item;
    assert_eq!(rt; Heads::from(heads.into_vec()).as_slice().len(), 1);
    assert_eq!(rt; Tiles::from(tiles.into_vec()).as_slice().len(), 3);
    Ok(())
}

/// Where the first bad field begins in so many bytes of the worked record, two of them changed.
fn first_bad(
    alloc: Global,
    length: usize,
    at: usize,
    change: [u8; 2],
) -> Result<Option<RecordError>, Fail> {
    if length > 113 || at >= 112 {
        return Err("row".into());
    }
    let mut bytes = RECORD;
    bytes[at] = change[0];
    bytes[at + 1] = change[1];
    Ok(decode(alloc, &bytes[..length]).err())
}

/// So many bytes, the place of the two changed bytes and what they become, and the first bad place.
static CHANGED: [(usize, usize, [u8; 2], u32); 28] = [
    (0, 0, [0x43, 0x44], 0),
    (112, 6, [0x32, 0x0A], 0),
    (11, 0, [0x43, 0x44], 8),
    // version 0 and 4,097, 0 and 65 sources, 16,385 tiles
    (112, 10, [0, 0], 8),
    (112, 10, [0x10, 0x01], 8),
    (112, 14, [0, 0], 12),
    (112, 14, [0, 65], 12),
    (112, 18, [0x40, 0x01], 16),
    // a head of another kind, and one that isn't whole
    (112, 20, [3, 0xF6], 20),
    (63, 0, [0x43, 0x44], 20),
    // family 5 and 0, levels 24 and -11, latitude 90, the zero bytes
    (112, 64, [5, 0xF6], 64),
    (112, 64, [0, 0xF6], 64),
    (112, 64, [1, 24], 64),
    (112, 64, [1, 0xF5], 64),
    (112, 66, [90, 0], 64),
    (112, 66, [0x2E, 1], 64),
    (112, 70, [1, 0], 64),
    (112, 70, [0, 1], 64),
    // longitude 180, and U and R out of range
    (112, 68, [0, 180], 64),
    (112, 74, [0, 1], 64),
    (112, 78, [0, 1], 64),
    // the second entry is as the first, the third as the second, and the third is cut
    (112, 80, [1, 0xF6], 80),
    (112, 96, [2, 0xF6], 96),
    (112, 80, [3, 0xF6], 96),
    (111, 0, [0x43, 0x44], 96),
    // fewer tiles than entries, more tiles than entries, and a byte too many
    (112, 18, [0, 2], 96),
    (112, 18, [0, 4], 112),
    (113, 0, [0x43, 0x44], 112),
];

#[test]
fn changed_records(rt: HostRuntime) -> Result<(), Fail> {
    for (length, at, change, place) in CHANGED.iter() {
        assert_eq!(rt;
            first_bad(rt.alloc(), *length, *at, *change)?,
            Some(RecordError::Bad { place: *place }),
            "{} bytes, byte {} is {}",
            *length,
            *at,
            change[0]
        );
    }
    // longitude 7 in the zone of latitude 70, whose geocells are 3 degrees wide, and longitude -7
    let bad = RecordError::Bad { place: 64 };
    assert_eq!(rt; first_bad(rt.alloc(), 112, 66, [70, 0])?, Some(bad));
    assert_eq!(rt; first_bad(rt.alloc(), 112, 68, [0xFF, 0xF9])?, None);
    Ok(())
}

/// A record of a thousand tiles of level 10 in one row, both ways.
#[test]
fn a_thousand_tiles(rt: HostRuntime) -> Result<(), Fail> {
    let mut bytes = Vec::from_slice(rt.alloc(), &RECORD[..16])?;
    bytes.extend_from_slice(&[0x00, 0x00, 0x03, 0xE8])?;
    bytes.extend_from_slice(&RECORD[20..64])?;
    for right in 0..1000u16 {
        let [high, low] = right.to_be_bytes();
        bytes.extend_from_slice(&[1, 10, 46, 0, 0, 7, 0, 0, 0, 0, 0, 0, 0, 0, high, low])?;
    }
    let item = decode(rt.alloc(), bytes.as_slice())?;
    assert_eq!(rt; item.tiles.as_slice().len(), 1000);
    let again = encode(rt.alloc(), &item)?;
    assert_eq!(rt; again.as_slice(), bytes.as_slice());
    Ok(())
}

#[test]
fn heads(rt: HostRuntime) {
    for n in [1, 9, 10, 4096] {
        assert_eq!(rt; read_head(write_head(n).as_str().as_bytes()), Some(n));
    }
    assert_eq!(rt; write_head(4096).as_str(), "4096\n");
    let others = [
        "", "\n", "0\n", "4097\n", "01\n", "1 \n", "1", "1\n\n", " 1\n", "+1\n", "10000\n", "1\r",
    ];
    for text in &others {
        assert_eq!(rt; read_head(text.as_bytes()), None, "{}", text);
    }
}
