//! The file of a source, written in pieces of many rows.
ghost use Rattle.std.specs.Prelude.{◌≡◌, ℕ, ◌+◌, ◌*◌, ◌<◌, ◌≤◌, ◌++◌, [], List, length, take, OnOk};
ghost use Rattle.cdb_source.specs.Texts.{source_text, posts_text, row_of_posts};
ghost use Rattle.cdb_cut.specs.Window.{rows_of};
ghost use Rattle.cdb_model.specs.Causes.{HasCause};
ghost use Rattle.cdb_model.specs.Maps.{IsThere, folder_above};
ghost use Rattle.cdb_files.specs.Disk as files;
ghost use Rattle.cdb_files.specs.Disk.{after_make_dir};
ghost use Rattle.cdb_files.specs.Whole.{after_pieces, after_write, WritesOnly};

use cdb_files::{Disk, Failed, Path, folder_above};
use cdb_source::{Source, encode_head, encode_row};

/// How many bytes a piece of a source's file has at most, however long the buffer is: it stays in the
/// processor's cache from the gathering of its rows to its writing.
const PIECE: usize = 2_097_152;

/// Makes the folder of a file where it isn't there, and an empty file.
fn begin_file<D: Disk>(disk: &mut D, path: &Path) -> Result<(), Failed>
    ensures ok { D.tells → OnOk result (D.state disk.new ≡ after_pieces path.now.bytes [] (after_make_dir
        (folder_above path.now.bytes) (D.state disk.old))) }
    ensures only { D.tells → WritesOnly D.clock D.since D.state path.now.bytes disk.old disk.new }
    ensures cause { HasCause (D.fault_count disk.old) (D.fault_count disk.new) result }
    ensures reads { D.read_count disk.new ≡ D.read_count disk.old }
{
    let folder = folder_above(path);
    disk.make_dir(&folder)?;
    disk.create(path)?;
    Ok(())
}

/// Writes one row of a source from a byte place on.
fn put_row_at(source: &Source, r: u32, at: usize, to: &mut [u8])
    requires row { r < source.now.head.rows }
    requires room { at + 2 * source.now.head.cols ≤ length to.old }
    ensures { take (at + 2 * source.now.head.cols) to.new ≡ take at to.old ++ posts_text (row_of_posts source.now r) }
{
    let size = 2 * source.head.cols as usize;
    encode_row(source, r, &mut to[at..at + size]);
}

/// Writes some rows of a source, one behind the other.
fn gather_rows(source: &Source, first: usize, count: usize, to: &mut [u8])
    requires rows { first + count ≤ source.now.head.rows }
    requires room { length to.old ≡ count * (2 * source.now.head.cols) }
    ensures { to.new ≡ posts_text (rows_of source.now first count) }
{
    let size = 2 * source.head.cols as usize;
    'rows: for k in 0..count {
        put_row_at(source, (first + k) as u32, k * size, to);
    }
}

/// Appends all rows of a source, as many in a piece as the buffer and a piece hold.
fn append_rows<D: Disk>(
    disk: &mut D,
    path: &Path,
    source: &Source,
    buffer: &mut [u8],
) -> Result<(), Failed>
    requires there { D.tells → IsThere ((D.state disk.old).present path.now.bytes) }
    requires room { 2 * source.now.head.cols ≤ length buffer.old }
    ensures ok { D.tells → (bytes : List ℕ) (s : files.State) → D.state disk.old ≡ after_pieces path.now.bytes bytes s
        → OnOk result (D.state disk.new ≡ after_pieces path.now.bytes (bytes ++ posts_text source.now.posts) s) }
    ensures only { D.tells → WritesOnly D.clock D.since D.state path.now.bytes disk.old disk.new }
    ensures cause { HasCause (D.fault_count disk.old) (D.fault_count disk.new) result }
    ensures reads { D.read_count disk.new ≡ D.read_count disk.old }
{
    let rows = source.head.rows as usize;
    let size = 2 * source.head.cols as usize;
    let most = buffer.len().min(PIECE) / size;
    let mut done = 0;
    'pieces: while done < rows {
        let count = most.min(rows - done);
        let piece = &mut buffer[..count * size];
        gather_rows(source, done, count, piece);
        disk.append(path, piece)?;
        done += count;
    }
    Ok(())
}

/// Writes the file of a source and syncs it, in its folder, which is made where it isn't there.
/// Whatever it answers, it changes no other path.
pub(crate) fn write_source<D: Disk>(
    disk: &mut D,
    path: &Path,
    source: &Source,
    buffer: &mut [u8],
) -> Result<(), Failed>
    requires { 2 * source.now.head.cols ≤ length buffer.old }
    ensures ok { D.tells → OnOk result (D.state disk.new ≡ after_write (folder_above path.now.bytes) path.now.bytes
        (source_text source.now) (D.state disk.old)) }
    ensures only { D.tells → WritesOnly D.clock D.since D.state path.now.bytes disk.old disk.new }
    ensures cause { HasCause (D.fault_count disk.old) (D.fault_count disk.new) result }
    ensures reads { D.read_count disk.new ≡ D.read_count disk.old }
{
    begin_file(disk, path)?;
    disk.append(path, &encode_head(&source.head))?;
    append_rows(disk, path, source, buffer)?;
    disk.sync_file(path)?;
    Ok(())
}
