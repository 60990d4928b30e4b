ghost use Rattle.std.specs.Prelude.{◌≡◌, ◌≤◌, ◌+◌, ◌++◌, ◌∷◌, [], Err, List, length, IfOk, IfErr, OnOk};
ghost use Rattle.cdb_source.specs.declared.source.Source.{Source};
ghost use Rattle.cdb_model.specs.Causes.{Rose};
ghost use Rattle.cdb_model.specs.Maps.{NoneUnder};
ghost use Rattle.cdb_model.specs.Names.{version_folder};
ghost use Rattle.cdb_model.specs.Stands.{Stands};
ghost use Rattle.cdb_files.specs.Moments.{AddsOnly};
ghost use Rattle.cdb_crash.specs.Crash.{IsWhole, IsEither, IsFaulted};
ghost use Rattle.cdb_recover.specs.inside.Clearing.{RemovesUnder};
ghost use Rattle.cdb_recover.specs.Answers.{IsAnswer, IsRecovered, HasNoLeftover, RemovesLeftovers, KeepsStore};
ghost use Rattle.cdb_recover.specs.inside.Answers.{IsCleared};
ghost use Rattle.cdb_model.specs.declared.limits.TheConstants.{MOST_VERSIONS};

use crate::calls::{remove_new_head, sync_root};
use crate::clearing::{MOST, clear};
use crate::head::newest;
use crate::recover_error::RecoverError;
use cdb_files::Disk;
use cdb_names::version_folder;

/// Removes the files under the version after the newest.
fn clear_next<D: Disk>(disk: &mut D, newest: u32) -> Result<u32, RecoverError>
    requires { newest ≤ MOST_VERSIONS }
    ensures clean { D.tells → (list : List (List Source)) → newest ≡ length list
        → IsWhole Stands list (D.state disk.old)
        → IfOk result (IsRecovered (D.state disk.new) list) }
    ensures moments { D.tells → (list : List (List Source)) → newest ≡ length list
        → IsWhole Stands list (D.state disk.old)
        → AddsOnly D.clock D.since disk.old disk.new (λ m. Stands m list) }
    ensures answer { D.tells → IsCleared newest (D.state disk.old).present result }
    ensures left { D.tells → OnOk result (NoneUnder (D.state disk.new).present (version_folder (newest + 1))) }
    ensures removed { D.tells
        → RemovesUnder 65536 (version_folder (newest + 1)) (D.state disk.old).present (D.state disk.new).present }
    ensures folders { D.tells → (D.state disk.new).made ≡ (D.state disk.old).made }
    ensures number { IfOk result (λ version. version ≡ newest) }
    ensures later { D.fault_count disk.old ≤ D.fault_count disk.new }
    ensures failed { result ≡ Err RecoverError.Fault → Rose (D.fault_count disk.old) (D.fault_count disk.new) }
    ensures reads { D.read_count disk.new ≡ D.read_count disk.old }
{
    match clear(disk, &version_folder(newest + 1)) {
        Ok(true) => Ok(newest),
        Ok(false) => Err(RecoverError::NotAStore {
            version: newest + 1,
            place: MOST,
        }),
        Err(_) => Err(RecoverError::Fault),
    }
}

/// Removes what was left of a publication after the newest version.
fn clear_after<D: Disk>(disk: &mut D, newest: u32) -> Result<u32, RecoverError>
    requires { newest ≤ MOST_VERSIONS }
    ensures clean { D.tells → (list : List (List Source)) → newest ≡ length list
        → IsWhole Stands list (D.state disk.old)
        → IfOk result (IsRecovered (D.state disk.new) list) }
    ensures moments { D.tells → (list : List (List Source)) → newest ≡ length list
        → IsWhole Stands list (D.state disk.old)
        → AddsOnly D.clock D.since disk.old disk.new (λ m. Stands m list) }
    ensures answer { D.tells → IsCleared newest (D.state disk.old).present result }
    ensures kept { D.tells → RemovesLeftovers newest (D.state disk.old).present (D.state disk.new).present }
    ensures left { D.tells → OnOk result (HasNoLeftover (D.state disk.new).present newest) }
    ensures folders { D.tells → (D.state disk.new).made ≡ (D.state disk.old).made }
    ensures number { IfOk result (λ version. version ≡ newest) }
    ensures later { D.fault_count disk.old ≤ D.fault_count disk.new }
    ensures failed { result ≡ Err RecoverError.Fault → Rose (D.fault_count disk.old) (D.fault_count disk.new) }
    ensures reads { D.read_count disk.new ≡ D.read_count disk.old }
{
    match remove_new_head(disk) {
        Ok(()) => clear_next(disk, newest),
        Err(_) => Err(RecoverError::Fault),
    }
}

/// Recovery of a disk whose root is synced.
fn settle<D: Disk>(disk: &mut D) -> Result<u32, RecoverError>
    ensures clean { D.tells → (list : List (List Source)) → IsWhole Stands list (D.state disk.old)
        → IfOk result (IsRecovered (D.state disk.new) list) }
    ensures moments { D.tells → (list : List (List Source)) → IsWhole Stands list (D.state disk.old)
        → AddsOnly D.clock D.since disk.old disk.new (λ m. Stands m list) }
    ensures answer { D.tells → IsAnswer (D.state disk.old).present result }
    ensures kept { D.tells → KeepsStore (D.state disk.old).present (D.state disk.new).present }
    ensures left { D.tells → IfOk result (HasNoLeftover (D.state disk.new).present) }
    ensures folders { D.tells → (D.state disk.new).made ≡ (D.state disk.old).made }
    ensures most { IfOk result (λ newest. newest ≤ MOST_VERSIONS) }
    ensures later { D.fault_count disk.old ≤ D.fault_count disk.new }
    ensures failed { result ≡ Err RecoverError.Fault → Rose (D.fault_count disk.old) (D.fault_count disk.new) }
    ensures reads { D.read_count disk.new ≤ D.read_count disk.old + 1 }
{
    match newest(disk) {
        Ok(newest) => clear_after(disk, newest),
        Err(error) => Err(error),
    }
}

/// Recovers a store, and answers its newest version, 0 where it has none. The root is synced first, so
/// that what `HEAD` has stays. Then `HEAD.tmp` goes, and the files under the version after the newest
/// go one by one, at most 65,536, each with a sync of its own folder. Folders stay. It takes no memory.
///
/// `Fault` comes only where a call of the disk failed, `NotAStore` exactly where `HEAD` is there and
/// isn't the text of a version, or a file is left after 65,536 removals. Where `HEAD` isn't such a text
/// nothing is removed.
pub fn recover<D: Disk>(disk: &mut D) -> Result<u32, RecoverError>
    ensures clean { D.tells → (list : List (List Source)) → IsWhole Stands list (D.state disk.old)
        → IfOk result (IsRecovered (D.state disk.new) list) }
    ensures moments { D.tells → (list : List (List Source)) → IsWhole Stands list (D.state disk.old)
        → AddsOnly D.clock D.since disk.old disk.new (λ m. Stands m list) }
    ensures fault_old { D.tells → (list : List (List Source)) (x : List Source)
        → IsFaulted Stands list x (D.state disk.old)
        → Stands (D.state disk.old).present list → IfOk result (IsRecovered (D.state disk.new) list) }
    ensures fault_new { D.tells → (list : List (List Source)) (x : List Source)
        → IsFaulted Stands list x (D.state disk.old)
        → Stands (D.state disk.old).present (list ++ x ∷ [])
        → IfOk result (IsRecovered (D.state disk.new) (list ++ x ∷ [])) }
    ensures fault_moments { D.tells → (list : List (List Source)) (x : List Source)
        → IsFaulted Stands list x (D.state disk.old)
        → AddsOnly D.clock D.since disk.old disk.new (IsEither Stands list x) }
    ensures answer { D.tells → IsAnswer (D.state disk.old).present result }
    ensures store { D.tells → (list : List (List Source)) → Stands (D.state disk.old).present list
        → IfErr result (λ error. error ≡ RecoverError.Fault) }
    ensures kept { D.tells → KeepsStore (D.state disk.old).present (D.state disk.new).present }
    ensures left { D.tells → IfOk result (HasNoLeftover (D.state disk.new).present) }
    ensures folders { D.tells → (D.state disk.new).made ≡ (D.state disk.old).made }
    ensures most { IfOk result (λ newest. newest ≤ MOST_VERSIONS) }
    ensures later { D.fault_count disk.old ≤ D.fault_count disk.new }
    ensures failed { result ≡ Err RecoverError.Fault → Rose (D.fault_count disk.old) (D.fault_count disk.new) }
    ensures reads { D.read_count disk.new ≤ D.read_count disk.old + 1 }
{
    match sync_root(disk) {
        Ok(()) => settle(disk),
        Err(_) => Err(RecoverError::Fault),
    }
}
