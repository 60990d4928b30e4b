//! What the runs of the program promise together. Each function does nothing; its contract is the law.
ghost use Rattle.cdb_front.specs.Checking.{CompletesCheckOf};
ghost use Rattle.cdb_front.specs.Completeness.{RunsAreComplete};
ghost use Rattle.cdb_front.specs.Continued.{Continues};
ghost use Rattle.cdb_front.specs.Generating.{CompletesFillOf};
ghost use Rattle.cdb_front.specs.Headline.{Headline, devices_of};
ghost use Rattle.cdb_front.specs.Served.{ServesTiles};

use crate::input::Input;
use crate::output::Output;
use cdb_files::{Disk, Shelf};

/// Any number of stops and reopenings, of runs of any mode: what the last run opens is the first store
/// followed, run by run, by the first of the publications begun, with every acknowledged one. What a run
/// is to meet is what `cdb_run` ensures of it: `outcome`, `checks` or `fills`, by its mode.
pub fn headline<D: Disk, H: Shelf, I: Input, O: Output>(disk: &D, shelf: &H, input: &I, output: &O)
    ensures { Headline (devices_of D.tells D.state D.clock D.since D.fault_count H.tells H.files H.fault_count I.left
        I.failed_at I.fault_count O.written) }
{}

/// Where no device fails, a run over a store is done, or wants memory, or its input is too long; each
/// answer is one of the machine's table, or want of memory.
pub fn completeness<D: Disk, H: Shelf, I: Input, O: Output>(
    disk: &D,
    shelf: &H,
    input: &I,
    output: &O,
)
    ensures { RunsAreComplete (devices_of D.tells D.state D.clock D.since D.fault_count H.tells H.files H.fault_count
        I.left I.failed_at I.fault_count O.written) O.fault_count }
{}

/// Where no device fails, a run of mode check over a store is done, or wants memory.
pub fn check_completeness<D: Disk, O: Output>(disk: &D, output: &O)
    ensures { CompletesCheckOf D.tells D.state D.clock D.since D.fault_count O.written O.fault_count }
{}

/// Where no device fails, a run of mode generate over a store is done, or wants memory, or reaches a limit.
pub fn fill_completeness<D: Disk, O: Output>(disk: &D, output: &O)
    ensures { CompletesFillOf D.tells D.state D.clock D.since D.fault_count O.written O.fault_count }
{}

/// Any number of runs of any mode, each over what a stop of the one before left or, where the disk is
/// clear, on that very disk: each finds a store again, whose lists have every acknowledged publication.
pub fn continues<D: Disk, H: Shelf, I: Input, O: Output>(disk: &D, shelf: &H, input: &I, output: &O)
    ensures { Continues (devices_of D.tells D.state D.clock D.since D.fault_count H.tells H.files H.fault_count I.left
        I.failed_at I.fault_count O.written) }
{}

/// Each tile that a run over a store serves has the bytes of a build from nothing of the publications
/// that its session answers from, and is missing exactly where no source of these reaches it.
pub fn serves_tiles<D: Disk, H: Shelf, I: Input, O: Output>(
    disk: &D,
    shelf: &H,
    input: &I,
    output: &O,
)
    ensures { ServesTiles (devices_of D.tells D.state D.clock D.since D.fault_count H.tells H.files H.fault_count I.left
        I.failed_at I.fault_count O.written) }
{}
