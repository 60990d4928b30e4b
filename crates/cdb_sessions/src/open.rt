//! The open sessions.
ghost use Rattle.std.specs.Prelude.{◌≡◌, [], option_map};
ghost use Rattle.cdb_model.specs.Sessions.{session_of};
ghost use Rattle.cdb_model.specs.declared.session.Session.{Session};
ghost use Rattle.cdb_sessions.specs.Open.{IsSessionOpened, IsSessionClosed};

use crate::errors::{SessionError, Unknown};
use indexmap::IndexMap;
use std::alloc::Global;
use std::marker::Model;

/// How many sessions can be open.
const MOST: usize = 64;

/// The versions of the open sessions by their numbers, in the order of opening, and how many were
/// opened.
#[derive(Drop)]
pub(crate) struct OpenSessions {
    versions: IndexMap<u32, u32>,
    opened: u32,
}

impl Model for OpenSessions {
    ghost use Rattle.cdb_sessions.specs.Open.{Open, open_of, AreOpen};

    ghost Value = { Open };

    ghost view = { λ o. open_of o.versions.entries o.opened };

    ghost invariant = { λ o. AreOpen o.versions.entries o.opened };
}

impl OpenSessions {
    /// No session is open, and none was opened. No memory is taken.
    pub(crate) fn new(alloc: Global) -> OpenSessions
        ensures { result ≡ record { list = []; opened = 0 } }
    {
        OpenSessions {
            versions: IndexMap::new(alloc),
            opened: 0,
        }
    }

    /// Opens a session at a version. Its number is one more than that of the last one.
    pub(crate) fn open(&mut self, version: u32) -> Result<u32, SessionError>
        ensures opened { IsSessionOpened version self.old self.new result }
    {
        if self.versions.len() >= MOST {
            return Err(SessionError::Many);
        }
        if self.opened == u32::MAX {
            return Err(SessionError::Memory);
        }
        let id = self.opened + 1;
        match self.versions.insert(id, version) {
            Ok(_) => {
                self.opened = id;
                Ok(id)
            }
            Err(_) => Err(SessionError::Memory),
        }
    }

    /// Closes a session.
    pub(crate) fn close(&mut self, id: u32) -> Result<(), Unknown>
        ensures { IsSessionClosed id self.old self.new result }
    {
        let _count = self.versions.len();
        let Some(_) = self.versions.shift_remove(&id) else {
            return Err(Unknown);
        };
        Ok(())
    }

    /// The version of a session.
    pub(crate) fn version_of(&self, id: u32) -> Option<u32>
        ensures { result ≡ option_map (λ (s : Session). s.version) (session_of id self.now.list) }
    {
        self.versions.get(&id).copied()
    }
}
