//! A source of the samples of a TIFF file.
ghost use Rattle.std.specs.Prelude.{◌≡◌, ◌^◌, ◌<◌, length, OnOk, OnErr, All};
ghost use Rattle.cdb_source.specs.Posts.{IsAllowed};
ghost use Rattle.cdb_model.specs.Grammar.{file_in};
ghost use Rattle.cdb_model.specs.Spelled.{row_of_pixels};
ghost use Rattle.cdb_model.specs.Text.{last_first};
ghost use Rattle.cdb_tiff_read.specs.Opened.{IsOpened};
ghost use Rattle.cdb_engine.specs.inside.Words.{HasRows};
ghost use Rattle.cdb_engine.specs.Loading.{IsMadeOf};

use crate::errors::LoadError;
use crate::head_words::{head_of, of_file};
use cdb_model::LoadWords;
use cdb_source::{Range, Source, SourceMaker};
use cdb_tiff_read::{Image, open, row};
use std::alloc::Global;

/// Gives the rows of an image to a source in the making, through one buffer, the north row first.
fn push_rows(
    maker: &mut SourceMaker,
    image: &Image,
    bytes: &[u8],
    buffer: &mut [i32],
    novalue: i32,
) -> Result<(), Range>
    requires opened { IsOpened bytes.now image.now }
    requires rows { image.now.length ≡ maker.old.head.rows }
    requires cols { image.now.width ≡ maker.old.head.cols }
    requires buffer { length buffer.old ≡ image.now.width }
    requires fresh { HasRows maker.old.head novalue (row_of_pixels bytes.now) 0 maker.old }
    ensures ok { OnOk result (HasRows maker.old.head novalue (row_of_pixels bytes.now) image.now.length maker.new) }
    ensures err { OnErr result (All (IsAllowed maker.old.head.kind novalue)
        (last_first image.now.length (row_of_pixels bytes.now)) → ⊥) }
{
    for r in 0..image.length {
        row(image, bytes, r, buffer);
        maker.push_row(buffer, novalue)?;
    }
    Ok(())
}

/// The source that an order spells with the bytes of its file.
pub fn source_of(alloc: Global, order: &LoadWords, bytes: &[u8]) -> Result<Source, LoadError>
    requires { length bytes.now < 2 ^ 32 }
    ensures { IsMadeOf (file_in order.now) bytes.now result }
{
    let image = match open(bytes) {
        Ok(image) => image,
        Err(error) => return Err(LoadError::Input(error)),
    };
    let Some(head) = head_of(&of_file(order), image.length, image.width) else {
        return Err(LoadError::Range);
    };
    let Ok(mut buffer) = vec![in alloc; 0; image.width as usize] else {
        return Err(LoadError::Memory);
    };
    let Ok(mut maker) = SourceMaker::new(alloc, head) else {
        return Err(LoadError::Memory);
    };
    match push_rows(
        &mut maker,
        &image,
        bytes,
        buffer.as_mut_slice(),
        order.novalue,
    ) {
        Ok(()) => Ok(maker.finish()),
        Err(_) => Err(LoadError::Range),
    }
}
