ghost use Rattle.std.specs.Prelude.{◌≡◌, ◌≤◌};
ghost use Rattle.cdb_memfiles.specs.Schedule.{one_more, CountsCall, FailsAsListed};

use cdb_files::Failed;

/// The calls of an object, numbered from 1, and those of them that fail.
#[derive(Drop)]
pub struct Schedule {
    pub fails: Vec<u64>,
    /// How many calls there were.
    pub number: u64,
    /// How many of them failed.
    pub faults: u64,
}

impl Schedule {
    pub fn new(fails: Vec<u64>) -> Schedule
        ensures fails { result.fails ≡ fails }
        ensures number { result.number ≡ 0 }
        ensures faults { result.faults ≡ 0 }
    {
        Schedule {
            fails,
            number: 0,
            faults: 0,
        }
    }

    /// The next call, which fails where its number is in the list.
    pub fn begin(&mut self) -> Result<(), Failed>
        ensures listed { FailsAsListed self.old self.new result }
    {
        self.number = self.number.saturating_add(1);
        if self.fails.as_slice().contains(&self.number) {
            self.faults = self.faults.saturating_add(1);
            return Err(Failed);
        }
        Ok(())
    }

    /// The call that has begun fails for another reason.
    pub fn fail(&mut self)
        ensures number { self.new.number ≡ self.old.number }
        ensures fails { self.new.fails ≡ self.old.fails }
        ensures faults { self.new.faults ≡ one_more self.old.faults }
        ensures later { self.old.faults ≤ self.new.faults }
    {
        self.faults = self.faults.saturating_add(1);
    }
}
