//! Which answer each result of the engine is.
ghost use Rattle.std.specs.Prelude.{◌≡◌, ◌≤◌, ℕ, List, ◌∷◌, [], IfOk, IfErr, OnErr, Err};
ghost use Rattle.cdb_model.specs.AnswerTexts.{shelf_fault, disk_fault};
ghost use Rattle.cdb_model.specs.Causes.{Rose};
ghost use Rattle.cdb_engine.specs.OtherSizes.{TileFindsOther};
ghost use Rattle.cdb_engine.specs.StoreAnswers.{ready_answer, publish_answer, session_answer, close_answer, tile_answer, HasBytes};
ghost use Rattle.cdb_front.specs.AnswerMeanings.{meant, HasLength, IsOrdinary, IsOfShelf, IsQuiet};
ghost use Rattle.cdb_front.specs.DamagedSizes.{AnswerFindsOther};
ghost use Rattle.cdb_front.specs.Sourcing.{inline_answer, load_answer};
ghost use Rattle.cdb_front.specs.Stepping.{Counts};

use crate::answers::Answer;
use cdb_engine::{
    Begun, InlineError, LoadError, Opened, PublishError, ReadyError, Reply, SessionError,
    SubmitRefused, TileError, Unknown,
};

/// No source can be submitted now.
pub fn ready_refusal(error: ReadyError) -> Answer
    ensures said { (reply : List ℕ) → meant result reply ≡ ready_answer error }
    ensures ordinary { IsOrdinary result }
{
    match error {
        ReadyError::Halted => Answer::Halted,
        ReadyError::Busy => Answer::Busy,
        ReadyError::Full => Answer::Full,
    }
}

/// The posts of a line made no source.
pub fn inline_refusal(error: InlineError) -> Answer
    ensures said { (reply : List ℕ) → meant result reply ≡ inline_answer error }
    ensures ordinary { IsOrdinary result }
{
    match error {
        InlineError::Memory => Answer::Memory,
        InlineError::Range => Answer::Range,
    }
}

/// A file of the shelf made no source.
pub fn load_refusal(error: LoadError) -> Answer
    ensures said { (reply : List ℕ) → meant result reply ≡ load_answer error }
    ensures ordinary { IsOfShelf result }
    ensures counted { (before now : ℕ) (reply : List ℕ) → before ≤ now → (error ≡ LoadError.Shelf → Rose before now)
        → Counts shelf_fault before now (meant result reply ∷ []) }
{
    match error {
        LoadError::Memory => Answer::Memory,
        LoadError::Shelf => Answer::Shelf,
        LoadError::Absent => Answer::Absent,
        LoadError::Big { size: _ } => Answer::TooBig,
        LoadError::Input(error) => Answer::Input(error.cause),
        LoadError::Range => Answer::Range,
    }
}

/// A source was submitted, or not.
pub fn submit_answer(outcome: Result<u32, SubmitRefused>) -> Answer
    ensures ok { IfOk outcome (λ count. result ≡ Answer.Source count) }
    ensures err { OnErr outcome (result ≡ Answer.Memory) }
    ensures ordinary { IsOrdinary result }
{
    match outcome {
        Ok(count) => Answer::Source(count),
        Err(_) => Answer::Memory,
    }
}

/// A publication was begun, or not.
pub fn publish_answer(outcome: Result<Begun, PublishError>) -> Answer
    ensures said { (reply : List ℕ) → meant result reply ≡ publish_answer outcome }
    ensures ordinary { IsOrdinary result }
{
    match outcome {
        Ok(begun) => Answer::Begun(begun.version, begun.files),
        Err(PublishError::Halted) => Answer::Halted,
        Err(PublishError::Busy) => Answer::Busy,
        Err(PublishError::Nothing) => Answer::Nothing,
        Err(PublishError::Large { count }) => Answer::Large(count),
        Err(PublishError::Entries { count }) => Answer::Entries(count),
        Err(PublishError::Versions) => Answer::FullOfVersions,
        Err(PublishError::Memory) => Answer::Memory,
    }
}

/// A session was opened, or not.
pub fn session_answer(outcome: Result<Opened, SessionError>) -> Answer
    ensures said { (reply : List ℕ) → meant result reply ≡ session_answer outcome }
    ensures ordinary { IsOrdinary result }
{
    match outcome {
        Ok(opened) => Answer::Session(opened.id, opened.version),
        Err(SessionError::Many) => Answer::Many,
        Err(SessionError::Memory) => Answer::Memory,
    }
}

/// A session was closed, or not.
pub fn close_answer(outcome: Result<(), Unknown>) -> Answer
    ensures said { (reply : List ℕ) → meant result reply ≡ close_answer outcome }
    ensures ordinary { IsOrdinary result }
{
    match outcome {
        Ok(()) => Answer::Closed,
        Err(Unknown) => Answer::Unknown,
    }
}

/// A tile was asked for.
pub fn tile_answer(outcome: Result<Reply, TileError>) -> Answer
    ensures said { (reply : List ℕ) → meant result reply ≡ tile_answer outcome reply }
    ensures length { (reply : List ℕ) → HasBytes outcome reply → HasLength result reply }
    ensures quiet { IsQuiet result }
    ensures counted { (before now : ℕ) (reply : List ℕ) → before ≤ now
        → (outcome ≡ Err TileError.Fault → Rose before now)
        → Counts disk_fault before now (meant result reply ∷ []) }
    ensures finds { (reply : List ℕ) → IfErr outcome TileFindsOther → AnswerFindsOther (meant result reply) }
{
    match outcome {
        Ok(Reply::Bytes(length)) => Answer::Tile(length),
        Ok(Reply::Missing) => Answer::Missing,
        Err(TileError::Unknown) => Answer::Unknown,
        Err(TileError::Fault) => Answer::Fault,
        Err(TileError::Damaged { expected, found }) => Answer::Damaged(expected, found),
    }
}
