//! Lines that give a source.
ghost use Rattle.std.specs.Prelude.{◌≡◌, ◌≤◌, ◌<◌, ℕ, None, List, ◌∷◌, [], length};
ghost use Rattle.cdb_model.specs.AnswerTexts.{shelf_fault};
ghost use Rattle.cdb_model.specs.Grammar.{InlineSource, FileSource, inline_in, file_in};
ghost use Rattle.cdb_model.specs.ImageFiles.{HasImage};
ghost use Rattle.cdb_model.specs.Maps.{Content};
ghost use Rattle.cdb_model.specs.Spelled.{SpellsSource, SpellsLoaded};
ghost use Rattle.cdb_model.specs.Stores.{Which, store_kind};
ghost use Rattle.cdb_model.specs.Transitions.{StateIn, IsReadyIn, InlineLineIn, SourceLineIn};
ghost use Rattle.cdb_engine.specs.Stays.{Shows, ChangesAlike};
ghost use Rattle.cdb_engine.specs.Tracks.{Leads};
ghost use Rattle.cdb_front.specs.AnswerMeanings.{meant, IsOrdinary, IsOfShelf};
ghost use Rattle.cdb_front.specs.Sourcing.{LoadsFrom};
ghost use Rattle.cdb_front.specs.Stepping.{Counts};

use crate::answers::Answer;
use crate::results::{inline_refusal, load_refusal, ready_refusal, submit_answer};
use cdb_engine::Engine;
use cdb_files::Shelf;
use cdb_model::{InlineWords, LoadWords};
use cdb_source::Source;
use std::alloc::Global;

/// Puts a source behind those that are pending.
fn submit(engine: &mut Engine, source: Source) -> Answer
    requires running { engine.old.halted ≡ None }
    requires idle { engine.old.work ≡ None }
    requires room { length engine.old.pending < 64 }
    ensures gives { (w : Which) (s : StateIn (store_kind w)) (words : InlineSource) → Shows engine.old w s
        → IsReadyIn (store_kind w) s → SpellsSource words source
        → Leads (InlineLineIn (store_kind w) s words (meant result engine.new.reply))
        (ChangesAlike engine.old engine.new w s) }
    ensures loads { (w : Which) (s : StateIn (store_kind w)) (words : FileSource) (content : Content) (bytes : List ℕ)
        → Shows engine.old w s → IsReadyIn (store_kind w) s → HasImage content bytes → SpellsLoaded words bytes source
        → Leads (SourceLineIn (store_kind w) s words content (meant result engine.new.reply))
        (ChangesAlike engine.old engine.new w s) }
    ensures ordinary { IsOrdinary result }
{
    submit_answer(engine.submit(source))
}

/// Gives a source whose posts stand in the line.
pub fn give(alloc: Global, engine: &mut Engine, words: &InlineWords) -> Answer
    ensures gives { (w : Which) (s : StateIn (store_kind w)) → Shows engine.old w s
        → Leads (InlineLineIn (store_kind w) s (inline_in words.now) (meant result engine.new.reply))
        (ChangesAlike engine.old engine.new w s) }
    ensures ordinary { IsOrdinary result }
{
    if let Err(error) = engine.ready() {
        return ready_refusal(error);
    }
    match engine.inline(alloc, words) {
        Ok(source) => submit(engine, source),
        Err(error) => inline_refusal(error),
    }
}

/// Gives a source whose posts a file of the shelf holds.
pub fn load<H: Shelf>(
    alloc: Global,
    engine: &mut Engine,
    shelf: &mut H,
    words: &LoadWords,
) -> Answer
    ensures loads { (w : Which) (s : StateIn (store_kind w)) → Shows engine.old w s
        → Leads (LoadsFrom (store_kind w) H.tells (H.files shelf.old) s (file_in words.now)
        (meant result engine.new.reply))
        (ChangesAlike engine.old engine.new w s) }
    ensures ordinary { IsOfShelf result }
    ensures files { H.files shelf.new ≡ H.files shelf.old }
    ensures later { H.fault_count shelf.old ≤ H.fault_count shelf.new }
    ensures counted { Counts shelf_fault (H.fault_count shelf.old) (H.fault_count shelf.new)
        (meant result engine.new.reply ∷ []) }
{
    if let Err(error) = engine.ready() {
        return ready_refusal(error);
    }
    match engine.load(alloc, words, shelf) {
        Ok(source) => submit(engine, source),
        Err(error) => load_refusal(error),
    }
}
