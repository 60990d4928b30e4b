ghost use Rattle.std.specs.Prelude.{◌≡◌, ◌≤◌, ◌+◌, Err, IfOk};
ghost use Rattle.cdb_model.specs.Causes.{Rose};
ghost use Rattle.cdb_model.specs.Names.{head_path};
ghost use Rattle.cdb_files.specs.Moments.{Rests};
ghost use Rattle.cdb_recover.specs.inside.Answers.{IsHeadRead};
ghost use Rattle.cdb_model.specs.declared.limits.TheConstants.{MOST_VERSIONS};

use crate::recover_error::RecoverError;
use cdb_files::Disk;
use cdb_manifest::read_head;
use cdb_names::head_path;

/// How many bytes the file `HEAD` has at most.
const HEAD_BYTES: u64 = 5;

/// The newest version, as the file `HEAD` names it, or 0 where there is no such file.
pub(crate) fn newest<D: Disk>(disk: &mut D) -> Result<u32, RecoverError>
    ensures read { D.tells → IsHeadRead ((D.state disk.old).present head_path) result }
    ensures most { IfOk result (λ newest. newest ≤ MOST_VERSIONS) }
    ensures state { D.state disk.new ≡ D.state disk.old }
    ensures time { Rests (D.clock disk.old) (D.clock disk.new) (D.since disk.old) (D.since disk.new) }
    ensures later { D.fault_count disk.old ≤ D.fault_count disk.new }
    ensures failed { result ≡ Err RecoverError.Fault → Rose (D.fault_count disk.old) (D.fault_count disk.new) }
    ensures reads { D.read_count disk.new ≤ D.read_count disk.old + 1 }
{
    let path = head_path();
    let size = match disk.size(&path) {
        Ok(Some(size)) => size,
        Ok(None) => return Ok(0),
        Err(_) => return Err(RecoverError::Fault),
    };
    if size > HEAD_BYTES {
        return Err(RecoverError::NotAStore {
            version: 0,
            place: 0,
        });
    }
    let mut bytes = [0; 5];
    let text = &mut bytes[..size as usize];
    if disk.read_at(&path, 0, text).is_err() {
        return Err(RecoverError::Fault);
    }
    match read_head(text) {
        Some(newest) => Ok(newest),
        None => Err(RecoverError::NotAStore {
            version: 0,
            place: 0,
        }),
    }
}
