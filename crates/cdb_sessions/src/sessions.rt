ghost use Rattle.std.specs.Prelude.{◌≡◌, ◌+◌, ◌-◌, ◌≤◌, ◌<◌, [], Err, length, option_map, IfOk};
ghost use Rattle.cdb_model.specs.Causes.{Rose};
ghost use Rattle.cdb_model.specs.Sessions.{session_of};
ghost use Rattle.cdb_model.specs.declared.session.Session.{Session};
ghost use Rattle.cdb_files.specs.Moments.{Rests};
ghost use Rattle.cdb_sessions.specs.Open.{IsSessionOpened, IsSessionClosed};
ghost use Rattle.cdb_sessions.specs.Sessions.{open_part, starts_empty, AreCurrent, TileOutcome, IsStill, ServesCurrent};

use crate::cache::Cache;
use crate::errors::{SessionError, TileError, Unknown};
use crate::open::OpenSessions;
use crate::slot::Pair;
use cdb_chain::Chain;
use cdb_files::Disk;
use cdb_grid::Tile;
use std::alloc::{AllocError, Global};
use std::marker::Model;

/// The reply to a request for a tile.
#[derive(Clone, Copy, Debug, PartialEq, Eq)]
pub enum Reply {
    /// No version up to the session's has the tile.
    Missing,
    /// The tile's file has so many bytes, and `Sessions::reply` gives them.
    Bytes(u32),
}

/// Sessions, each at its version, and the tiles that were read last.
#[derive(Drop)]
pub struct Sessions {
    open: OpenSessions,
    cache: Cache,
    replied: bool,
}

impl Model for Sessions {
    ghost use Rattle.cdb_sessions.specs.Sessions.{Sessions as State, sessions_state, HasReply};

    ghost Value = { State };

    ghost view = { λ s. sessions_state s.open s.cache s.replied };

    ghost invariant = { λ s. HasReply s.cache s.replied };
}

impl Sessions {
    /// No session is open, and no tile is kept. The memory of all tiles is taken here.
    pub fn new(alloc: Global) -> Result<Sessions, AllocError>
        ensures { IfOk result (λ sessions. sessions ≡ starts_empty) }
    {
        let cache = Cache::new(alloc)?;
        Ok(Sessions {
            open: OpenSessions::new(alloc),
            cache,
            replied: false,
        })
    }

    /// Opens a session at a version, and gives its number: 1, 2, 3 and so on, none of which is used
    /// again. `Many` exactly where 64 are open.
    pub fn open(&mut self, version: u32) -> Result<u32, SessionError>
        ensures opened { IsSessionOpened version (open_part self.old) (open_part self.new) result }
        ensures still { IsStill self.old self.new }
    {
        self.open.open(version)
    }

    /// Closes a session. `Unknown` exactly where none of this number is open.
    pub fn close(&mut self, id: u32) -> Result<(), Unknown>
        ensures closed { IsSessionClosed id (open_part self.old) (open_part self.new) result }
        ensures still { IsStill self.old self.new }
    {
        self.open.close(id)
    }

    /// The version of a session, or `None` where none of this number is open.
    pub fn version_of(&self, id: u32) -> Option<u32>
        ensures { result ≡ option_map (λ (s : Session). s.version) (session_of id self.now.list) }
    {
        self.open.version_of(id)
    }

    /// The same, without what holds over one disk.
    fn serve<D: Disk>(
        &mut self,
        id: u32,
        tile: &Tile,
        chain: &Chain,
        disk: &mut D,
    ) -> Result<Reply, TileError>
        ensures open { open_part self.new ≡ open_part self.old }
        ensures served { TileOutcome D.tells (D.state disk.old).present disk.old disk.new chain.now id tile.now
            self.old self.new result }
        ensures state { D.state disk.new ≡ D.state disk.old }
        ensures time { Rests (D.clock disk.old) (D.clock disk.new) (D.since disk.old) (D.since disk.new) }
        ensures later { D.fault_count disk.old ≤ D.fault_count disk.new }
        ensures failed { result ≡ Err TileError.Fault → Rose (D.fault_count disk.old) (D.fault_count disk.new) }
        ensures reads { (D.read_count disk.old ≤ D.read_count disk.new)
            × (D.read_count disk.new ≤ D.read_count disk.old + 1) }
    {
        self.replied = false;
        let Some(version) = self.open.version_of(id) else {
            return Err(TileError::Unknown);
        };
        let Some(found) = chain.find(version, tile) else {
            return Ok(Reply::Missing);
        };
        let pair = Pair {
            version: found,
            tile: *tile,
        };
        if !self.cache.use_file(&pair) {
            self.cache.read_file(pair, disk)?;
        }
        let count = self.cache.first().len() as u32;
        self.replied = true;
        Ok(Reply::Bytes(count))
    }

    /// The file of a tile at a session's version, which `reply` then gives. It takes no memory. `Unknown`
    /// exactly where the session isn't open. A file that is kept is given without a call of the disk.
    /// Any other is read by one call, and `Damaged` comes exactly where it isn't there or has another
    /// size than its form gives; `Fault` only where a call of the disk failed.
    pub fn tile<D: Disk>(
        &mut self,
        id: u32,
        tile: &Tile,
        chain: &Chain,
        disk: &mut D,
    ) -> Result<Reply, TileError>
        ensures open { open_part self.new ≡ open_part self.old }
        ensures served { TileOutcome D.tells (D.state disk.old).present disk.old disk.new chain.now id tile.now
            self.old self.new result }
        ensures state { D.state disk.new ≡ D.state disk.old }
        ensures time { Rests (D.clock disk.old) (D.clock disk.new) (D.since disk.old) (D.since disk.new) }
        ensures later { D.fault_count disk.old ≤ D.fault_count disk.new }
        ensures failed { result ≡ Err TileError.Fault → Rose (D.fault_count disk.old) (D.fault_count disk.new) }
        ensures reads { (D.read_count disk.old ≤ D.read_count disk.new)
            × (D.read_count disk.new ≤ D.read_count disk.old + 1) }
        ensures current { D.tells → AreCurrent (D.state disk.old).present self.old.kept
            → ServesCurrent (D.state disk.old).present self.old.list chain.now id tile.now self.new result }
    {
        self.serve(id, tile, chain, disk)
    }

    /// At most seven tiles are kept.
    pub fn kept_are_few(&self)
        ensures { length self.now.kept ≤ 7 }
    {
        self.cache.kept_are_few();
    }

    /// The bytes of the last request where that was answered `Bytes`, and else none.
    pub fn reply(&self) -> &[u8]
        ensures { result.now ≡ self.now.reply }
    {
        if self.replied {
            self.cache.first()
        } else {
            &[]
        }
    }
}
