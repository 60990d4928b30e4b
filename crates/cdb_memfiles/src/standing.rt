ghost use Rattle.std.specs.Prelude.{◌≡◌};
ghost use Rattle.cdb_memfiles.specs.Crash.{half};
ghost use Rattle.cdb_memfiles.specs.Files.{bytes_of};

use crate::pick::Pick;

/// The first possibility of a path.
#[derive(Drop)]
pub enum First {
    /// Anything may be left.
    Anything,
    Absent,
    /// The bytes that are there at present, or absence where there are none.
    Present,
    /// Bytes that were there before.
    Older(Vec<u8>),
}

/// A path: its bytes at present, and its first possibility.
#[derive(Drop)]
pub struct Standing {
    pub now: Option<Vec<u8>>,
    pub first: First,
}

impl Standing {
    ghost use Rattle.cdb_memfiles.specs.Standing.{shown_by, kept_shown, picked_shown, synced_first};

    /// With other bytes, or none, and the first possibility that it had.
    pub fn replace(self, now: Option<Vec<u8>>) -> Standing
        ensures { shown_by result ≡ (bytes_of now, (shown_by self).1) }
    {
        let Standing { now: older, first } = self;
        let first = match first {
            First::Present => match older {
                Some(bytes) => First::Older(bytes),
                None => First::Absent,
            },
            First::Anything => First::Anything,
            First::Absent => First::Absent,
            First::Older(bytes) => First::Older(bytes),
        };
        Standing { now, first }
    }

    /// After a sync of the file.
    pub fn sync(&mut self)
        ensures { shown_by self.new ≡ ((shown_by self.old).0, synced_first (shown_by self.old).1) }
    {
        if let First::Anything = self.first {
            self.first = First::Absent;
        }
    }

    /// After a sync of the folder.
    pub fn keep(&mut self)
        ensures { shown_by self.new ≡ kept_shown (shown_by self.old).0 (shown_by self.old).1 }
    {
        match self.first {
            First::Anything if self.now.is_some() => {}
            _ => self.first = First::Present,
        }
    }

    /// What a crash leaves by this pick.
    pub fn pick(self, pick: Pick) -> Option<Vec<u8>>
        ensures { bytes_of result ≡ picked_shown pick (shown_by self) }
    {
        let Standing { now, first } = self;
        match (pick, first) {
            (Pick::Oldest, First::Anything | First::Absent) => None,
            (Pick::Oldest, First::Older(bytes)) => Some(bytes),
            (Pick::Torn, First::Anything) => halve(now),
            _ => now,
        }
    }
}

/// The first half of the bytes.
fn halve(file: Option<Vec<u8>>) -> Option<Vec<u8>>
    ensures { bytes_of result ≡ half (bytes_of file) }
{
    let mut bytes = file?;
    bytes.truncate(bytes.len() / 2);
    Some(bytes)
}
