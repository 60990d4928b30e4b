//! Many files.
use super::write;
use cdb_files::{Failed, Path, ReadSize, read_whole};
use cdb_memfiles::MemDisk;
use std::test::Fail;

/// The path of a file by its number, in folders of ten files.
fn numbered(number: u32) -> Path {
    let mut path = Path::new();
    for place in [10_000, 1_000, 100, 10] {
        push_digit(&mut path, number / place % 10);
    }
    let _ = path.try_push('/');
    push_digit(&mut path, number % 10);
    path
}

fn push_digit(path: &mut Path, digit: u32) {
    let _ = path.try_push(char::from_digit(digit, 10).unwrap_or('x'));
}

fn reads_back(disk: &mut MemDisk, number: u32) -> Result<bool, Failed> {
    let mut bytes = [0; 188];
    let read = read_whole(disk, &numbered(number), &mut bytes)?;
    Ok(read == ReadSize::Read && bytes == [(number % 251) as u8; 188])
}

#[test]
fn twenty_thousand_files_are_made_and_read(rt: HostRuntime) -> Result<(), Fail> {
    let mut disk = MemDisk::new(rt.alloc(), Vec::new(rt.alloc()));
    for number in 0..20_000 {
        write(&mut disk, &numbered(number), &[(number % 251) as u8; 188])?;
    }
    for number in 0..20_000 {
        assert!(rt; reads_back(&mut disk, number)?);
    }
    assert!(rt; disk.reads() == 20_000);
    Ok(())
}
