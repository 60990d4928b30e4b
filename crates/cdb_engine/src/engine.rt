ghost use Rattle.std.specs.Prelude.{◌≡◌, ◌++◌, ◌∷◌, ◌+◌, ◌<◌, ◌≤◌, [], None, length, is_some, Err};
ghost use Rattle.std.specs.Prelude.{IfSome, IfOk, IfErr, OnOk, OnErr};
ghost use Rattle.cdb_source.specs.declared.source.Source as given;
ghost use Rattle.cdb_model.specs.Causes.{Rose};
ghost use Rattle.cdb_model.specs.Events as machine;
ghost use Rattle.cdb_model.specs.Grammar.{InlineSource, FileSource};
ghost use Rattle.cdb_model.specs.KnownStore.{KnownState};
ghost use Rattle.cdb_model.specs.Maps.{Content};
ghost use Rattle.cdb_model.specs.Stores.{Which, store_kind};
ghost use Rattle.cdb_model.specs.Transitions.{StateIn, IsReadyIn, InlineLineIn, SourceLineIn};
ghost use Rattle.cdb_model.specs.Transitions.{OpenLineIn, TileLineIn, CloseLineIn, VersionsLineIn};
ghost use Rattle.cdb_files.specs.Moments.{AddsOnly, Rests};
ghost use Rattle.cdb_sessions.specs.Sessions.{TileOutcome, AreCurrent, ServesCurrent};
ghost use Rattle.cdb_engine.specs.Held.{sessions_part};
ghost use Rattle.cdb_engine.specs.OtherSizes.{StepFindsOther, TileFindsOther};
ghost use Rattle.cdb_engine.specs.StepSizes.{TellsStep};
ghost use Rattle.cdb_engine.specs.StoreAnswers.{ready_answer, session_answer, close_answer, advance_answer};
ghost use Rattle.cdb_engine.specs.StoreAnswers.{tile_answer, HasBytes, TriesIn, HaltsBy, AdvanceCause, steps_left};
ghost use Rattle.cdb_engine.specs.Stays.{Stays, Shows, ChangesAlike};
ghost use Rattle.cdb_engine.specs.Tracks.{Origin, Tracks, Leads, DuringNow};
ghost use Rattle.cdb_model.specs.declared.limits.TheConstants.{MOST_VERSIONS};

use crate::errors::{AdvanceError, ReadyError, SubmitRefused};
use crate::reply::Opened;
use crate::settle::{Settled, settle};
use cdb_chain::Chain;
use cdb_files::Disk;
use cdb_grid::Tile;
use cdb_publish::{Progress, Publication};
use cdb_sessions::{Reply, SessionError, Sessions, TileError, Unknown};
use cdb_source::Source;
use std::marker::Model;

/// How many sources can be pending.
const MOST: usize = 64;

/// The records of the versions, the publication that is going, the sources that are pending, the open
/// sessions with the tiles that were read last, and the count of the disk's failed calls at which the
/// writer was halted.
#[derive(Drop)]
pub struct Engine {
    pub(crate) chain: Chain,
    pub(crate) work: Option<Publication>,
    pub(crate) pending: Vec<Source>,
    pub(crate) sessions: Sessions,
    pub(crate) halted: Option<u64>,
}

impl Model for Engine {
    ghost use Rattle.std.specs.Coded.{codes};
    ghost use Rattle.cdb_publish.specs.contracts.publication.Publication as publish;
    ghost use Rattle.cdb_engine.specs.Held.{Held, held_of, IsEngine};

    ghost Value = { Held };

    ghost coded = { Prim.hlevel (codes, publish.the_row.coded) };

    ghost view = { λ e. held_of e.chain e.work e.pending.items e.sessions e.halted };

    ghost invariant = { λ e. IsEngine e.chain e.work e.pending.items e.halted };
}

impl Engine {
    /// Whether a source can be submitted. `Halted` comes first: a step of this opening failed or found
    /// a file damaged. Then `Busy`: a publication is going. `Full`: 64 sources are pending.
    pub fn ready(&self) -> Result<(), ReadyError>
        ensures ok { (w : Which) (s : StateIn (store_kind w)) → Shows self.now w s
            → OnOk result (IsReadyIn (store_kind w) s) }
        ensures gives { IfErr result (λ error. (w : Which) (s : StateIn (store_kind w)) (words : InlineSource)
            → Shows self.now w s → InlineLineIn (store_kind w) s words (ready_answer error) s) }
        ensures loads { IfErr result (λ error. (w : Which) (s : StateIn (store_kind w)) (words : FileSource)
            (content : Content) → Shows self.now w s
            → SourceLineIn (store_kind w) s words content (ready_answer error) s) }
        ensures running { OnOk result (self.now.halted ≡ None) }
        ensures idle { OnOk result (self.now.work ≡ None) }
        ensures room { OnOk result (length self.now.pending < 64) }
    {
        if self.halted.is_some() {
            Err(ReadyError::Halted)
        } else if self.work.is_some() {
            Err(ReadyError::Busy)
        } else if self.pending.len() >= MOST {
            Err(ReadyError::Full)
        } else {
            Ok(())
        }
    }

    /// Whether a publication is going.
    pub fn going(&self) -> bool
        ensures { result ≡ is_some self.now.work }
    {
        self.work.is_some()
    }

    /// How many steps are left of the publication that is going, 0 where none is.
    pub fn left(&self) -> u32
        ensures { result ≡ steps_left self.now.work }
    {
        match &self.work {
            Some(work) => work.left(),
            None => 0,
        }
    }

    /// Where a step failed or found a file damaged, how many calls of the disk had failed then.
    pub fn halted(&self) -> Option<u64>
        ensures { result ≡ self.now.halted }
    {
        self.halted
    }

    /// The newest version.
    pub fn versions(&self) -> u32
        ensures tells { (w : Which) (s : StateIn (store_kind w)) → Shows self.now w s
            → VersionsLineIn (store_kind w) s (machine.versions result) s }
        ensures value { result ≡ length self.now.chain.records }
        ensures most { result ≤ MOST_VERSIONS }
    {
        self.chain.newest()
    }

    /// Puts a source behind those that are pending, and answers how many are pending then. To be
    /// called where `ready` answers Ok. Where memory was refused the source comes back.
    pub fn submit(&mut self, source: Source) -> Result<u32, SubmitRefused>
        requires running { self.old.halted ≡ None }
        requires idle { self.old.work ≡ None }
        requires room { length self.old.pending < 64 }
        ensures number { IfOk result (λ number. number ≡ length self.old.pending + 1) }
        ensures next { OnOk result (self.new ≡ record self.old { pending = self.old.pending ++ source ∷ [] }) }
        ensures refused { IfErr result (λ refused. refused.source ≡ source) }
        ensures err { OnErr result (self.new ≡ self.old) }
    {
        match self.pending.push(source) {
            Ok(()) => Ok(self.pending.len() as u32),
            Err(failed) => Err(SubmitRefused {
                source: failed.value,
            }),
        }
    }

    /// Makes the next step of the publication that is going. `Halted` comes first: a step of this
    /// opening failed or found a file damaged. Then `Nothing`: none is going. `Fault` only where a
    /// call of the disk failed, and `Damaged` exactly where a file that the step needs isn't there or has
    /// another size than its form gives, with the sizes of the first such file: the publication is given
    /// up then, and the writer halted at the count of failed calls that the disk tells. It takes no memory.
    /// A step that is refused makes no call of the disk, and the last step reads no file.
    pub fn step<D: Disk>(&mut self, disk: &mut D) -> Result<Progress, AdvanceError>
        ensures step { (w : Which) (origin : Origin) (s : StateIn (store_kind w))
            → Stays D.tells D.clock D.fault_count D.since D.state origin disk.old self.old w s
            → Leads (TriesIn (store_kind w) s (advance_answer result))
            (Stays D.tells D.clock D.fault_count D.since D.state origin disk.new self.new w) }
        ensures moments { (s : KnownState) → D.tells → Tracks self.old (D.state disk.old) s
            → AddsOnly D.clock D.since disk.old disk.new (DuringNow s.list s.going) }
        ensures sizes { IfSome self.old.work (λ work. TellsStep D.tells (D.state disk.old).present work
            self.old.chain.records (D.read_count disk.old) (D.read_count disk.new) result) }
        ensures other { IfErr result StepFindsOther }
        ensures idle { self.old.work ≡ None → disk.new ≡ disk.old }
        ensures halt { HaltsBy result self.old.halted self.new.halted (D.fault_count disk.new) }
        ensures reply { self.new.reply ≡ self.old.reply }
        ensures kept { self.new.kept ≡ self.old.kept }
        ensures later { D.fault_count disk.old ≤ D.fault_count disk.new }
        ensures cause { AdvanceCause result (D.fault_count disk.old) (D.fault_count disk.new) }
    {
        if self.halted.is_some() {
            return Err(AdvanceError::Halted);
        }
        let Some(mut work) = self.work.take() else {
            return Err(AdvanceError::Nothing);
        };
        let made = work.step(&mut self.chain, disk);
        let Settled {
            work,
            halted,
            answer,
        } = settle(made, work, disk.faults());
        self.work = work;
        self.halted = halted;
        answer
    }

    /// Opens a session at the newest version. Numbers are 1, 2, 3 and so on, and none is used again.
    /// `Many`: 64 sessions are open. `Memory`: memory was refused, or `2^32 - 1` sessions were opened.
    pub fn open_session(&mut self) -> Result<Opened, SessionError>
        ensures connects { (w : Which) (s : StateIn (store_kind w)) → Shows self.old w s
            → Leads (OpenLineIn (store_kind w) s (session_answer result)) (ChangesAlike self.old self.new w s) }
        ensures reply { self.new.reply ≡ self.old.reply }
        ensures kept { self.new.kept ≡ self.old.kept }
    {
        let version = self.chain.newest();
        match self.sessions.open(version) {
            Ok(id) => Ok(Opened { id, version }),
            Err(error) => Err(error),
        }
    }

    /// Ends the session of this number. `Unknown`: no session of that number is open.
    pub fn close_session(&mut self, id: u32) -> Result<(), Unknown>
        ensures disconnects { (w : Which) (s : StateIn (store_kind w)) → Shows self.old w s
            → Leads (CloseLineIn (store_kind w) s id (close_answer result)) (ChangesAlike self.old self.new w s) }
        ensures reply { self.new.reply ≡ self.old.reply }
        ensures kept { self.new.kept ≡ self.old.kept }
    {
        self.sessions.close(id)
    }

    /// Asks for a tile in a session, which answers from the publications up to its version. Where
    /// a source of these reaches the tile, `Engine::reply` has the bytes of its file then; in every
    /// other case, an error included, it is empty. The files of the seven tiles that were answered
    /// last are kept, and such a file is given without a call of the disk; any other is read by one
    /// call. It takes no memory, and changes no session and no publication. `Unknown`: no session of
    /// that number is open. `Fault` only where a call of the disk failed. `Damaged`: the tile's file
    /// isn't kept, and isn't there or has another size than its form gives.
    pub fn tile<D: Disk>(&mut self, id: u32, tile: &Tile, disk: &mut D) -> Result<Reply, TileError>
        ensures asks { (w : Which) (origin : Origin) (s : StateIn (store_kind w))
            → Stays D.tells D.clock D.fault_count D.since D.state origin disk.old self.old w s
            → Leads (TileLineIn (store_kind w) s id tile.now (tile_answer result self.new.reply))
            (Stays D.tells D.clock D.fault_count D.since D.state origin disk.new self.new w) }
        ensures same { self.new ≡ record self.old { kept = self.new.kept; reply = self.new.reply } }
        ensures served { TileOutcome D.tells (D.state disk.old).present disk.old disk.new self.old.chain id tile.now
            (sessions_part self.old) (sessions_part self.new) result }
        ensures current { D.tells → AreCurrent (D.state disk.old).present self.old.kept
            → ServesCurrent (D.state disk.old).present self.old.sessions self.old.chain id tile.now
            (sessions_part self.new) result }
        ensures other { IfErr result TileFindsOther }
        ensures bytes { HasBytes result self.new.reply }
        ensures state { D.state disk.new ≡ D.state disk.old }
        ensures time { Rests (D.clock disk.old) (D.clock disk.new) (D.since disk.old) (D.since disk.new) }
        ensures reads { D.read_count disk.new ≤ D.read_count disk.old + 1 }
        ensures later { D.fault_count disk.old ≤ D.fault_count disk.new }
        ensures cause { result ≡ Err TileError.Fault → Rose (D.fault_count disk.old) (D.fault_count disk.new) }
    {
        self.sessions.tile(id, tile, &self.chain, disk)
    }

    /// The files of at most seven tiles are kept.
    pub fn kept_are_few(&self)
        ensures { length self.now.kept ≤ 7 }
    {
        self.sessions.kept_are_few();
    }

    /// The bytes of the file of the tile that was asked for last; none where that request was answered
    /// `Missing` or by an error, and none before the first request.
    pub fn reply(&self) -> &[u8]
        ensures { result.now ≡ self.now.reply }
    {
        self.sessions.reply()
    }
}
