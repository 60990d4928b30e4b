//! Says whether a TIFF file can be read, and why not. Standard input is the file. Standard output is
//! one line `ok <width> <length>` and then the samples, a line a row from the north; or one line with the
//! cause for which the file is refused and the byte that it speaks of, as `compressed 46` or
//! `absent 273 8`; or `big` where the file has more than 67,108,864 bytes.
#![tactic(auto)]

use cdb_tiff_read::{open, row};
use std::alloc::Global;
use std::io::{self, BufWriter, Read, Write};

/// The bytes of the longest file that is read.
const MOST_BYTES: usize = 67_108_864;

/// Writes the samples of a row, with a blank between two of them.
fn write_row<W: Write + Drop>(out: &mut W, samples: &[i32]) -> io::Result<()> {
    for (column, sample) in samples.iter().enumerate() {
        if column > 0 {
            write!(out, " ")?;
        }
        write!(out, "{sample}")?;
    }
    writeln!(out)
}

/// Writes what the reader says of a file.
fn describe<W: Write + Drop>(alloc: Global, bytes: &[u8], out: &mut W) -> io::Result<()> {
    if bytes.len() > MOST_BYTES {
        return writeln!(out, "big");
    }
    let image = match open(bytes) {
        Ok(image) => image,
        Err(error) => return writeln!(out, "{error}"),
    };
    writeln!(out, "ok {} {}", image.width, image.length)?;
    let mut samples = vec![in alloc; 0; image.width as usize]?;
    for r in 0..image.length {
        row(&image, bytes, r, samples.as_mut_slice());
        write_row(out, samples.as_slice())?;
    }
    Ok(())
}

fn main(rt: HostRuntime) -> io::Result<()> {
    let mut bytes = Vec::new(rt.alloc());
    rt.stdin()
        .take(MOST_BYTES as u64 + 1)
        .read_to_end(&mut bytes)?;
    let mut out = BufWriter::new(rt.alloc(), rt.stdout())?;
    describe(rt.alloc(), bytes.as_slice(), &mut out)?;
    out.flush()
}
