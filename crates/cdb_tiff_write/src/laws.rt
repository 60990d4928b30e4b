//! Laws of the bytes of a tile's file, each the contract of a function that does nothing.
ghost use Rattle.cdb_model.specs.ByteLaws.{BytesByReaching, IsWrittenTile};
ghost use Rattle.cdb_tiff_write.specs.ReadLaws.{TilesAreRead, AreReadBack, SamplesAreValues, FramesAreOfTiles};
ghost use Rattle.cdb_tiff_write.specs.SizeLaws.{TilesAreSized};

/// A tile's file depends on the sources that reach the tile, in their order, and on no other: what
/// doesn't reach a tile leaves its file as it was.
pub fn bytes_by_reaching_sources()
    ensures { BytesByReaching }
{}

/// The file of a tile of elevations, or of least or greatest ones, has the form that the reader of TIFF
/// files is known to read (`cdb_tiff_base::written_tile_is_read`), with the tile's numbers, north row
/// first.
pub fn tiles_are_written_files()
    ensures { IsWrittenTile }
{}

/// The reader of TIFF files refuses no file of a tile of elevations, or of least or greatest ones, and
/// gives back the tile's values.
pub fn tiles_are_read()
    ensures { TilesAreRead }
{}

/// The samples of the file of a tile are the tile's values.
pub fn samples_are_values()
    ensures { SamplesAreValues }
{}

/// The frame in the file of a tile, the south row first, has the tile's numbers.
pub fn frames_are_of_tiles()
    ensures { FramesAreOfTiles }
{}

/// The samples of a file are the numbers of the rows that were written into it, in two bytes each
/// (`put_row_16`) or in one (`put_row_8`), the north row first.
pub fn rows_are_read_back()
    ensures { AreReadBack }
{}

/// The length of a tile's file follows from the tile alone, and is at most 2,097,338 bytes.
pub fn tiles_are_sized()
    ensures { TilesAreSized }
{}
