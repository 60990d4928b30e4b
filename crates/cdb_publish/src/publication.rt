ghost use Rattle.std.specs.Option.{ForSome};
ghost use Rattle.cdb_publish.specs.Fitting.{IsSoundFor};

use crate::advance::advance;
use crate::errors::{Progress, StepError};
use crate::head_step::publish_head;
use crate::left::{into_record, left};
use crate::work::Work;
use cdb_chain::Chain;
use cdb_files::Disk;

/// A publication that is going, step by step, or that is published.
#[derive(Drop)]
pub struct Publication {
    version: u32,
    files: u32,
    work: Option<Work>,
    ghost sound: { ForSome work (IsSoundFor version files) },
}

impl Publication {
    ghost use Rattle.std.specs.Prelude.{◌≡◌, ℕ, ◌+◌, ◌<◌, ◌≤◌, ◌++◌, ◌∷◌, [], List, length, Some};
    ghost use Rattle.std.specs.Prelude.{OnOk, OnErr, IfOk, IfErr};
    ghost use Rattle.cdb_source.specs.declared.source.Source as given;
    ghost use Rattle.cdb_model.specs.Stands.{Stands};
    ghost use Rattle.cdb_files.specs.Moments.{AddsOnly};
    ghost use Rattle.cdb_crash.specs.Crash.{IsClean, IsEither};
    ghost use Rattle.cdb_publish.specs.Causes.{IsCaused};
    ghost use Rattle.cdb_chain.specs.Publications.{AreRecords};
    ghost use Rattle.cdb_publish.specs.Fitting.{IsSound};
    ghost use Rattle.cdb_publish.specs.Making.{IsUnwritten};
    ghost use Rattle.cdb_publish.specs.Needs.{IsDamage};
    ghost use Rattle.cdb_publish.specs.Reads.{SizesTold};
    ghost use Rattle.cdb_publish.specs.declared.work.Work as work;
    ghost use Rattle.cdb_publish.specs.Entries.{AddsRecord};
    ghost use Rattle.cdb_publish.specs.Going.{left_of, reads_left_of, Underway, TellsProgress};

    pub(crate) fn of_work(work: Work) -> Publication
        requires { IsSound work }
        ensures work { result.work ≡ Some work }
        ensures version { result.version ≡ work.plan.record.version }
        ensures files { result.files ≡ length work.plan.record.tiles }
    {
        Publication {
            version: work.plan.record.version,
            files: work.plan.record.tiles.as_slice().len() as u32,
            work: Some(work),
        }
    }

    /// How many tiles it writes.
    pub fn files(&self) -> u32
        ensures { result ≡ self.now.files }
    {
        self.files
    }

    /// Its version.
    pub fn version(&self) -> u32
        ensures { result ≡ self.now.version }
    {
        self.version
    }

    /// How many steps are left.
    pub fn left(&self) -> u32
        ensures { result ≡ left_of self.now }
    {
        match &self.work {
            Some(work) => left(work),
            None => 0,
        }
    }

    /// Makes the next step: of a source, a tile, a folder, the record, or, as the last one, the head. `Ok`
    /// takes one from the steps left, and says `Published` exactly where it was the last one.
    ///
    /// `Fault` comes only where a call of the disk failed. `Damaged` comes exactly where a file that it
    /// needs isn't there or has another length than its form gives, with the lengths in bytes of the first
    /// such file; nothing is written then. After an error as many steps are left as before, and
    /// nothing is promised of making them: the publication is given up.
    pub fn step<D: Disk>(&mut self, chain: &mut Chain, disk: &mut D) -> Result<Progress, StepError>
        requires left { 0 < left_of self.old }
        requires next { self.old.version ≡ length chain.old.records + 1 }
        requires spare { self.old.files < chain.old.spare }
        ensures going { D.tells → (P : List (List given.Source)) (x : List given.Source) (number : ℕ)
            → Underway self.old P x number chain.old.records (D.state disk.old) → 1 < left_of self.old
            → OnOk result (Underway self.new P x (number + 1) chain.new.records (D.state disk.new)) }
        ensures published { D.tells → (P : List (List given.Source)) (x : List given.Source) (number : ℕ)
            → Underway self.old P x number chain.old.records (D.state disk.old) → left_of self.old ≡ 1
            → OnOk result (IsClean Stands (P ++ x ∷ []) (D.state disk.new)
            × AreRecords chain.new.records (P ++ x ∷ [])) }
        ensures moments { D.tells → (P : List (List given.Source)) (x : List given.Source) (number : ℕ)
            → Underway self.old P x number chain.old.records (D.state disk.old) → 1 < left_of self.old
            → AddsOnly D.clock D.since disk.old disk.new (λ m. Stands m P) }
        ensures last_moments { D.tells → (P : List (List given.Source)) (x : List given.Source) (number : ℕ)
            → Underway self.old P x number chain.old.records (D.state disk.old) → left_of self.old ≡ 1
            → AddsOnly D.clock D.since disk.old disk.new (IsEither Stands P x) }
        ensures left { OnOk result (left_of self.new + 1 ≡ left_of self.old) }
        ensures refused_left { OnErr result (left_of self.new ≡ left_of self.old) }
        ensures refused_reads { OnErr result (reads_left_of self.new ≡ reads_left_of self.old) }
        ensures progress { IfOk result (TellsProgress (left_of self.old) self.old.version) }
        ensures version { self.new.version ≡ self.old.version }
        ensures files { self.new.files ≡ self.old.files }
        ensures chain { 1 < left_of self.old → chain.new ≡ chain.old }
        ensures refused_chain { OnErr result (chain.new ≡ chain.old) }
        ensures added { left_of self.old ≡ 1
            → OnOk result (AddsRecord self.old.version self.old.files chain.old.records chain.new.records) }
        ensures undamaged { D.tells → (P : List (List given.Source)) (x : List given.Source) (number : ℕ)
            → Underway self.old P x number chain.old.records (D.state disk.old)
            → IfErr result (λ e. e ≡ StepError.Fault) }
        ensures sizes { (w : work.Work) → self.old.work ≡ Some w → 1 < left_of self.old
            → SizesTold D.tells (D.state disk.old).present w.plan chain.old.records w.done (D.read_count disk.old)
            (D.read_count disk.new) result }
        ensures reads { OnOk result (D.read_count disk.new + reads_left_of self.new ≤ D.read_count disk.old +
            reads_left_of self.old) }
        ensures most_reads { D.read_count disk.new ≤ D.read_count disk.old + reads_left_of self.old }
        ensures last_error { left_of self.old ≡ 1 → IfErr result (λ e. e ≡ StepError.Fault) }
        ensures last_reads { left_of self.old ≡ 1 → D.read_count disk.new ≡ D.read_count disk.old }
        ensures unwritten { IfErr result (IsUnwritten (D.state disk.old) (D.state disk.new)) }
        ensures damage { IfErr result IsDamage }
        ensures cause { IsCaused (D.fault_count disk.old) (D.fault_count disk.new) result }
    {
        let Some(mut work) = self.work.take() else {
            unreachable!()
        };
        if left(&work) == 1 {
            return match publish_head(disk, self.version) {
                Ok(()) => {
                    chain.add(into_record(work));
                    Ok(Progress::Published(self.version))
                }
                Err(_) => {
                    self.work = Some(work);
                    Err(StepError::Fault)
                }
            };
        }
        match advance(&mut work, chain, disk) {
            Ok(()) => {
                self.work = Some(work);
                Ok(Progress::Going)
            }
            Err(error) => {
                self.work = Some(work);
                Err(error)
            }
        }
    }
}
