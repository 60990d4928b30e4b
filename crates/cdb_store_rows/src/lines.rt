//! Lines, and what each says.

use cdb_commands::read_line;
use std::alloc::{AllocError, Global};
use std::test::Fail;

/// A line, and what it says, as `Debug` shows it.
const LINES: [(&str, &str); 75] = [
    // words alone
    ("", "Ok(Blank)"),
    ("publish", "Ok(Publish)"),
    ("step all", "Ok(StepAll)"),
    ("open", "Ok(Open)"),
    ("versions", "Ok(Versions)"),
    ("quit", "Ok(Quit)"),
    ("step 8", "Ok(Step(8))"),
    ("step 0", "Ok(Step(0))"),
    ("close 9", "Ok(Close(9))"),
    // sources
    (
        "inline elev -10 46 7 1 1 1 1 500",
        "Ok(Inline(InlineWords { kind: Elevation, level: -10, lat: Fraction { n: 46, d: 1 }, lon: Fraction { n: 7, d: 1 }, dlat: Fraction { n: 1, d: 1 }, dlon: Fraction { n: 1, d: 1 }, rows: 1, cols: 1, posts: [500] }))",
    ),
    (
        "inline elev -9 46 7 1/2 1/2 2 2 30 40 10 20",
        "Ok(Inline(InlineWords { kind: Elevation, level: -9, lat: Fraction { n: 46, d: 1 }, lon: Fraction { n: 7, d: 1 }, dlat: Fraction { n: 1, d: 2 }, dlon: Fraction { n: 1, d: 2 }, rows: 2, cols: 2, posts: [30, 40, 10, 20] }))",
    ),
    (
        "inline elev -9 46 7 1 1 1 2 0 1",
        "Ok(Inline(InlineWords { kind: Elevation, level: -9, lat: Fraction { n: 46, d: 1 }, lon: Fraction { n: 7, d: 1 }, dlat: Fraction { n: 1, d: 1 }, dlon: Fraction { n: 1, d: 1 }, rows: 1, cols: 2, posts: [0, 1] }))",
    ),
    (
        "inline elev -9 46 7 1 1 1 2 -1 0",
        "Ok(Inline(InlineWords { kind: Elevation, level: -9, lat: Fraction { n: 46, d: 1 }, lon: Fraction { n: 7, d: 1 }, dlat: Fraction { n: 1, d: 1 }, dlon: Fraction { n: 1, d: 1 }, rows: 1, cols: 2, posts: [-1, 0] }))",
    ),
    (
        "inline elev -9 46 7 1 1 2 2 30 -32768 10 20",
        "Ok(Inline(InlineWords { kind: Elevation, level: -9, lat: Fraction { n: 46, d: 1 }, lon: Fraction { n: 7, d: 1 }, dlat: Fraction { n: 1, d: 1 }, dlon: Fraction { n: 1, d: 1 }, rows: 2, cols: 2, posts: [30, -32768, 10, 20] }))",
    ),
    (
        "inline elev 11 46 7 1 1 1 2 5 6",
        "Ok(Inline(InlineWords { kind: Elevation, level: 11, lat: Fraction { n: 46, d: 1 }, lon: Fraction { n: 7, d: 1 }, dlat: Fraction { n: 1, d: 1 }, dlon: Fraction { n: 1, d: 1 }, rows: 1, cols: 2, posts: [5, 6] }))",
    ),
    (
        "inline elev 24 46 7 1 1 1 1 5",
        "Ok(Inline(InlineWords { kind: Elevation, level: 24, lat: Fraction { n: 46, d: 1 }, lon: Fraction { n: 7, d: 1 }, dlat: Fraction { n: 1, d: 1 }, dlon: Fraction { n: 1, d: 1 }, rows: 1, cols: 1, posts: [5] }))",
    ),
    (
        "inline elev 0 46 7 1/7 1 1 1 5",
        "Ok(Inline(InlineWords { kind: Elevation, level: 0, lat: Fraction { n: 46, d: 1 }, lon: Fraction { n: 7, d: 1 }, dlat: Fraction { n: 1, d: 7 }, dlon: Fraction { n: 1, d: 1 }, rows: 1, cols: 1, posts: [5] }))",
    ),
    (
        "inline elev 0 46 7 1 1 1 2 5",
        "Ok(Inline(InlineWords { kind: Elevation, level: 0, lat: Fraction { n: 46, d: 1 }, lon: Fraction { n: 7, d: 1 }, dlat: Fraction { n: 1, d: 1 }, dlon: Fraction { n: 1, d: 1 }, rows: 1, cols: 2, posts: [5] }))",
    ),
    (
        "inline mat -9 46 7 1/2 1/2 2 2 3 5 5 3",
        "Ok(Inline(InlineWords { kind: Material, level: -9, lat: Fraction { n: 46, d: 1 }, lon: Fraction { n: 7, d: 1 }, dlat: Fraction { n: 1, d: 2 }, dlon: Fraction { n: 1, d: 2 }, rows: 2, cols: 2, posts: [3, 5, 5, 3] }))",
    ),
    (
        "inline elev 23 403726925823/8589934592 68719476735/8589934592 1 1 1 1 7",
        "Ok(Inline(InlineWords { kind: Elevation, level: 23, lat: Fraction { n: 403726925823, d: 8589934592 }, lon: Fraction { n: 68719476735, d: 8589934592 }, dlat: Fraction { n: 1, d: 1 }, dlon: Fraction { n: 1, d: 1 }, rows: 1, cols: 1, posts: [7] }))",
    ),
    (
        "source elev -9 46 7 1/2 1/2 -32768 a.tif",
        "Ok(Source(LoadWords { kind: Elevation, level: -9, lat: Fraction { n: 46, d: 1 }, lon: Fraction { n: 7, d: 1 }, dlat: Fraction { n: 1, d: 2 }, dlon: Fraction { n: 1, d: 2 }, novalue: -32768, path: \"a.tif\" }))",
    ),
    (
        "source mat 1 47 11 1/3600 1/3600 -000000009 tiles_1/B-2/n47e011.tif",
        "Ok(Source(LoadWords { kind: Material, level: 1, lat: Fraction { n: 47, d: 1 }, lon: Fraction { n: 11, d: 1 }, dlat: Fraction { n: 1, d: 3600 }, dlon: Fraction { n: 1, d: 3600 }, novalue: -9, path: \"tiles_1/B-2/n47e011.tif\" }))",
    ),
    (
        "source elev 1 47 11 1 1 0 .../a..",
        "Ok(Source(LoadWords { kind: Elevation, level: 1, lat: Fraction { n: 47, d: 1 }, lon: Fraction { n: 11, d: 1 }, dlat: Fraction { n: 1, d: 1 }, dlon: Fraction { n: 1, d: 1 }, novalue: 0, path: \".../a..\" }))",
    ),
    // the longest numbers, with leading zeros, and a denominator of 0
    (
        "inline elev -000000009 -000000000000000046/000000000000000002 000000000000000007/0 1/999999999999999999 -0 000000001 999999999 -032768",
        "Ok(Inline(InlineWords { kind: Elevation, level: -9, lat: Fraction { n: -46, d: 2 }, lon: Fraction { n: 7, d: 0 }, dlat: Fraction { n: 1, d: 999999999999999999 }, dlon: Fraction { n: 0, d: 1 }, rows: 1, cols: 999999999, posts: [-32768] }))",
    ),
    ("step 000000001", "Ok(Step(1))"),
    ("step 999999999", "Ok(Step(999999999))"),
    // tiles
    (
        "tile 1 N46E007_D001_S001_T001_LC10_U0_R0.tif",
        "Ok(Tile(1, Tile { family: Elev, cell: Geocell { lat: 46, lon: 7 }, level: Level { number: -10 }, up: 0, right: 0 }))",
    ),
    (
        "tile 000000002 N46E007_D001_S001_T001_L23_U8388607_R8388607.tif",
        "Ok(Tile(2, Tile { family: Elev, cell: Geocell { lat: 46, lon: 7 }, level: Level { number: 23 }, up: 8388607, right: 8388607 }))",
    ),
    (
        "tile 1 N50E007_D001_S001_T001_LC10_U0_R0.tif",
        "Err(Name { place: 3 })",
    ),
    (
        "tile 1 N46E007_D001_S001_T001_L01_U01_R0.tif",
        "Err(Name { place: 26 })",
    ),
    ("tile 1 x", "Err(Name { place: 0 })"),
    // a word too few, and one too many
    ("inline elev 0 46", "Err(Syntax)"),
    ("inline elev 0 46 7 1 1 1 1", "Err(Syntax)"),
    ("source elev 1 47 11 1 1 0", "Err(Syntax)"),
    ("source elev 1 47 11 1 1 0 a b", "Err(Syntax)"),
    ("step", "Err(Syntax)"),
    ("step 1 2", "Err(Syntax)"),
    ("tile 1", "Err(Syntax)"),
    ("tile", "Err(Syntax)"),
    ("close", "Err(Syntax)"),
    ("open 1", "Err(Syntax)"),
    ("versions 1", "Err(Syntax)"),
    ("quit now", "Err(Syntax)"),
    // spaces, and other bytes
    (" ", "Err(Syntax)"),
    ("step  all", "Err(Syntax)"),
    (" publish", "Err(Syntax)"),
    ("publish ", "Err(Syntax)"),
    ("publish\r", "Err(Syntax)"),
    ("tile 1 \u{e9}", "Err(Syntax)"),
    ("tile 1 N46\u{7f}", "Err(Syntax)"),
    ("Publish", "Err(Syntax)"),
    ("inline  elev 0 46 7 1 1 1 1 5", "Err(Syntax)"),
    // numbers that aren't of their form
    ("step 1000000000", "Err(Syntax)"),
    ("step -1", "Err(Syntax)"),
    ("step +1", "Err(Syntax)"),
    ("step 1a", "Err(Syntax)"),
    ("close -1", "Err(Syntax)"),
    ("inline elev 0000000000 46 7 1 1 1 1 5", "Err(Syntax)"),
    ("inline elev - 46 7 1 1 1 1 5", "Err(Syntax)"),
    (
        "inline elev 0 0000000000000000046 7 1 1 1 1 5",
        "Err(Syntax)",
    ),
    (
        "inline elev 0 46/0000000000000000001 7 1 1 1 1 5",
        "Err(Syntax)",
    ),
    ("inline elev 0 1/2/3 7 1 1 1 1 5", "Err(Syntax)"),
    ("inline elev 0 1/ 7 1 1 1 1 5", "Err(Syntax)"),
    ("inline elev 0 /2 7 1 1 1 1 5", "Err(Syntax)"),
    ("inline elev 0 1/-2 7 1 1 1 1 5", "Err(Syntax)"),
    ("inline elev 0 46 7 1 1 -1 1 5", "Err(Syntax)"),
    ("inline elev 0 46 7 1 1 1 1 0000005", "Err(Syntax)"),
    ("inline low 0 46 7 1 1 1 1 5", "Err(Syntax)"),
    // paths that aren't of their form
    ("source elev 1 47 11 1 1 0 ..", "Err(Syntax)"),
    ("source elev 1 47 11 1 1 0 .", "Err(Syntax)"),
    ("source elev 1 47 11 1 1 0 a/../b", "Err(Syntax)"),
    ("source elev 1 47 11 1 1 0 a//b", "Err(Syntax)"),
    ("source elev 1 47 11 1 1 0 /a", "Err(Syntax)"),
    ("source elev 1 47 11 1 1 0 a/", "Err(Syntax)"),
    ("source elev 1 47 11 1 1 0 a%b", "Err(Syntax)"),
];

fn said(alloc: Global, line: &[u8]) -> Result<String, AllocError> {
    format!(in alloc; "{:?}", read_line(line))
}

/// A front, and then a text so many times.
fn repeat(alloc: Global, front: &str, text: &str, count: u32) -> Result<String, AllocError> {
    let mut line = String::from_str(alloc, front)?;
    for _ in 0..count {
        line.push_str(text)?;
    }
    Ok(line)
}

#[test]
fn each_line_says_what_it_is_written_for(rt: HostRuntime) -> Result<(), Fail> {
    for (line, expected) in LINES.iter() {
        let found = said(rt.alloc(), line.as_bytes())?;
        assert_eq!(rt; found.as_str(), *expected);
    }
    Ok(())
}

/// A front, a text and how often it follows, and whether that is a line.
const LONG_LINES: [(&str, &str, u32, bool); 8] = [
    ("inline elev 0 46 7 1 1 8 8", " 5", 64, true),
    ("inline elev 0 46 7 1 1 8 8", " 5", 65, false),
    ("source elev 1 47 11 1 1 0 a", "b", 127, true),
    ("source elev 1 47 11 1 1 0 a", "b", 128, false),
    ("source elev 1 47 11 1 1 0 a", "/b", 63, true),
    ("tile 1 ~", "!", 127, true),
    ("tile 1 ~", "!", 128, false),
    ("a", "a", 4096, false),
];

#[test]
fn long_words_and_many_posts_have_a_limit(rt: HostRuntime) -> Result<(), Fail> {
    for (front, text, count, is_line) in LONG_LINES.iter() {
        let line = repeat(rt.alloc(), front, text, *count)?;
        let found = said(rt.alloc(), line.as_bytes())?;
        assert_eq!(rt; found.as_str() != "Err(Syntax)", *is_line);
    }
    Ok(())
}
