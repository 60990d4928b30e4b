//! The laws of what a crash leaves, over the store's own files. Each function does nothing; its
//! contract is the law. A disk here is a state of one, whatever made it.
ghost use Rattle.cdb_model.specs.Stands.{Stands};
ghost use Rattle.cdb_model.specs.Records.{head_file_text};
ghost use Rattle.cdb_model.specs.ByteLaws.{BytesByReaching};
ghost use Rattle.cdb_crash.specs.Leftovers.{HasNext};
ghost use Rattle.cdb_crash.specs.StepLaws.{StepNumbers, NewestFiles, FilledHead, FailedWrites};
ghost use Rattle.cdb_crash.specs.Laws.{OwnPaths, OneList, EmptyStore, FolderCalls, LeftoverCalls, ClearStays, Room, BeginsClean, FileStep, FolderStep, RecordStep, ReadyStep, HeadStep, PlanSteps, Publishes, EveryList, WholeStays, Clearing, Recovers, AfterFault, AfterStop};

/// The files of a version lie under its folder, the folders of two versions have no path in
/// common, and neither head lies in one.
pub fn own_paths()
    ensures { OwnPaths }
{}

/// A map of files stands for at most one list of publications.
pub fn one_list()
    ensures { OneList Stands }
{}

/// No file at all, a new head alone, and one file of version 1 alone each stand for the empty list;
/// a head, and a file of version 2, don't. A disk that was never written is clean for the empty
/// list.
pub fn empty_store()
    ensures { EmptyStore Stands }
{}

/// Making a folder or syncing one, at each moment and whatever it answers: a crash leaves nothing
/// that it might not have left before.
pub fn folder_calls()
    ensures { FolderCalls }
{}

/// `create`, `append`, `sync_file` and `remove` on a leftover, and runs of them, at each moment and
/// whatever they answer: what a crash leaves stands for the same list as before.
pub fn leftover_calls()
    ensures { LeftoverCalls Stands }
{}

/// A clear disk stays clear in each call of a publication, whatever the call answers, but where the
/// `create` of a file under a version fails.
pub fn clear_stays()
    ensures { ClearStays }
{}

/// There is room among the leftovers for the new head on a whole disk, for each path in the middle
/// of a publication, and in recovery for each file that is there.
pub fn room()
    ensures { Room Stands }
{}

/// The middle of a publication with no file yet is a clean disk.
pub fn begins_clean()
    ensures { BeginsClean Stands }
{}

/// Writing and syncing the next file leads from one middle to the next.
pub fn file_step()
    ensures { FileStep Stands }
{}

/// Syncing a folder leads from one middle to the next.
pub fn folder_step()
    ensures { FolderStep Stands }
{}

/// Writing and syncing the record, and syncing its folder, leads from one middle to the next.
pub fn record_step()
    ensures { RecordStep Stands }
{}

/// Where all files of a publication are there and all their folders are synced, the head alone is
/// left.
pub fn ready_step()
    ensures { ReadyStep Stands HasNext }
{}

/// While the new head is written a crash leaves the old list. In the rename, and until the root is
/// synced, it leaves the old list or the new one, also where a call fails. After that it leaves the
/// new one alone, and the disk is clean.
pub fn head_step()
    ensures { HeadStep Stands HasNext head_file_text }
{}

/// The steps of a publication before its head, one by one in their order: each leads from one
/// middle to the next, and at the end the head alone is left. With the head they are as many as the
/// sources, the touched tiles, the folders of both, and two.
pub fn plan_steps()
    ensures { PlanSteps }
{}

/// Which step of a publication has a number: the sources come first, then the tiles, then the folders
/// of both, and the record is the last one.
pub fn step_numbers()
    ensures { StepNumbers }
{}

/// In which file a tile stands, and with which bytes: in that of the last version that touches it.
pub fn newest_files()
    ensures { BytesByReaching → NewestFiles }
{}

/// The new head, once it is written, is there, and a crash leaves it so or absent, on any disk.
pub fn filled_head()
    ensures { FilledHead }
{}

/// What a write leaves that failed: made folders stay, the file is as before or has a first part of
/// its bytes, and a clear disk is clear, unless it was `create` that failed.
pub fn failed_writes()
    ensures { FailedWrites }
{}

/// All steps in a row, and then the head, lead from a clean disk to a clean disk of the list with
/// one publication more.
pub fn publishes()
    ensures { Publishes }
{}

/// Each list that publications may be is stood for: some disk is clean for it.
pub fn every_list()
    ensures { EveryList }
{}

/// A whole disk stays whole where a folder is synced, and where the new head is removed.
pub fn whole_stays()
    ensures { WholeStays Stands }
{}

/// The files of the version after the newest go one by one, each with its folder synced, from a
/// whole disk to a clean one.
pub fn clearing()
    ensures { Clearing Stands }
{}

/// Recovery from a whole disk: the root is synced, the new head removed, and then any files of the
/// version after the newest that are there, one by one, each with its folder synced. They are at
/// most 65,536, and where none is left the disk is clean.
pub fn recovers()
    ensures { Recovers }
{}

/// After a fault without a stop the sync of the root leaves a whole disk, of the one of two lists
/// that the present map stands for.
pub fn after_fault()
    ensures { AfterFault Stands }
{}

/// What a stop leaves of a whole disk is, taken as the only thing that is possible, a whole disk
/// again.
pub fn after_stop()
    ensures { AfterStop Stands }
{}
