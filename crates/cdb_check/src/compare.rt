//! Files, tiles and heads that are compared as wholes.
ghost use Rattle.std.specs.Prelude.{◌≡◌, ◌↔◌, ◌≤◌, Some, IsTrue, length, IfOk};
ghost use Rattle.cdb_model.specs.Causes.{HasCause};
ghost use Rattle.cdb_files.specs.Moments.{Rests};

use cdb_files::{Disk, Failed, Path, ReadSize, read_whole};
use cdb_grid::Tile;
use cdb_source::{SourceHead, encode_head};

/// Whether a file has these bytes. It is read into `found`, which has their length.
fn is_same<D: Disk>(
    disk: &mut D,
    path: &Path,
    expected: &[u8],
    found: &mut [u8],
) -> Result<bool, Failed>
    requires { length found.old ≡ length expected.now }
    ensures same { D.tells → IfOk result (λ same. IsTrue same
        ↔ ((D.state disk.old).present path.now.bytes ≡ Some expected.now)) }
    ensures length { length found.new ≡ length found.old }
    ensures state { D.state disk.new ≡ D.state disk.old }
    ensures time { Rests (D.clock disk.old) (D.clock disk.new) (D.since disk.old) (D.since disk.new) }
    ensures cause { HasCause (D.fault_count disk.old) (D.fault_count disk.new) result }
{
    match read_whole(disk, path, found) {
        Ok(ReadSize::Read) => Ok(*found == *expected),
        Ok(ReadSize::Other(_)) => Ok(false),
        Err(error) => Err(error),
    }
}

/// Whether a file is there and has exactly these bytes. It is read into the first bytes of `found`, and
/// nothing of it where its length is another.
pub(crate) fn has_bytes<D: Disk>(
    disk: &mut D,
    path: &Path,
    expected: &[u8],
    found: &mut [u8],
) -> Result<bool, Failed>
    requires { length expected.now ≤ length found.old }
    ensures same { D.tells → IfOk result (λ same. IsTrue same
        ↔ ((D.state disk.old).present path.now.bytes ≡ Some expected.now)) }
    ensures length { length found.new ≡ length found.old }
    ensures state { D.state disk.new ≡ D.state disk.old }
    ensures time { Rests (D.clock disk.old) (D.clock disk.new) (D.since disk.old) (D.since disk.new) }
    ensures cause { HasCause (D.fault_count disk.old) (D.fault_count disk.new) result }
{
    is_same(disk, path, expected, &mut found[..expected.len()])
}

/// Whether two lists have the same tiles in the same order.
pub(crate) fn same_tiles(a: &[Tile], b: &[Tile]) -> bool
    ensures { IsTrue result ↔ (a.now ≡ b.now) }
{
    a == b
}

/// Whether two heads are the same.
pub(crate) fn same_head(a: &SourceHead, b: &SourceHead) -> bool
    ensures { IsTrue result ↔ (a.now ≡ b.now) }
{
    encode_head(a) == encode_head(b)
}
