ghost use Rattle.std.specs.Prelude.{◌≡◌, ◌+◌, ◌-◌, ◌^◌, min, OnOk, OnErr};
ghost use Rattle.cdb_model.specs.Causes.{HasCause};

use cdb_files::Failed;
use std::io;

/// The answer of the system, whose error is a failure and raises the count, up to its last value.
pub fn count_fault<T>(faults: &mut u64, answer: io::Result<T>) -> Result<T, Failed>
    ensures cause { HasCause faults.old faults.new result }
    ensures ok { OnOk result (faults.new ≡ faults.old) }
    ensures err { OnErr result (faults.new ≡ min (faults.old + 1) (2 ^ 64 - 1)) }
{
    match answer {
        Ok(value) => Ok(value),
        Err(_) => {
            *faults = faults.saturating_add(1);
            Err(Failed)
        }
    }
}
