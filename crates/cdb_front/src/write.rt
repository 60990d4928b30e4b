ghost use Rattle.std.specs.Prelude.{◌≡◌, ◌++◌, OnOk, OnErr};
ghost use Rattle.std.specs.Io.KnownBytes.{Appends};
ghost use Rattle.cdb_model.specs.Causes.{HasCause};
ghost use Rattle.cdb_front.specs.Devices.{WritesPart};
ghost use Rattle.cdb_front.specs.Failures.{FailsOnce};

use crate::output::Output;
use cdb_files::Failed;

/// Writes the whole piece, or fails with a part of it written.
#[tactic(auto, using(crate::proofs::Writing::begins, crate::proofs::Writing::goes_on, crate::proofs::Writing::ends, crate::proofs::Writing::breaks))]
pub fn write_all<O: Output>(output: &mut O, piece: &[u8]) -> Result<(), Failed>
    ensures ok { OnOk result (Appends (O.written output.old) (O.written output.new) piece.now) }
    ensures err { OnErr result (WritesPart (O.written output.old) (O.written output.new) piece.now) }
    ensures cause { HasCause (O.fault_count output.old) (O.fault_count output.new) result }
    ensures once { FailsOnce result (O.fault_count output.old) (O.fault_count output.new) }
{
    let mut rest = piece;
    while !rest.is_empty() {
        match output.write(rest) {
            Ok(count) => rest = rest.split_at(count).1,
            Err(failed) => return Err(failed),
        }
    }
    Ok(())
}

/// Writes two pieces, one after the other.
#[tactic(auto, using(crate::proofs::Writing::first_breaks, crate::proofs::Writing::second_breaks, crate::proofs::Writing::both))]
pub fn write_both<O: Output>(output: &mut O, first: &[u8], second: &[u8]) -> Result<(), Failed>
    ensures ok { OnOk result (Appends (O.written output.old) (O.written output.new) (first.now ++ second.now)) }
    ensures err { OnErr result (WritesPart (O.written output.old) (O.written output.new) (first.now ++ second.now)) }
    ensures cause { HasCause (O.fault_count output.old) (O.fault_count output.new) result }
    ensures once { FailsOnce result (O.fault_count output.old) (O.fault_count output.new) }
{
    match write_all(output, first) {
        Ok(()) => write_all(output, second),
        Err(failed) => Err(failed),
    }
}
