//! Laws of the lines of the script. Each function does nothing; its contract is the law.
ghost use Rattle.cdb_commands.specs.Settled.{OneEvent, OneReading};
ghost use Rattle.cdb_commands.specs.Wording.{ReadingIsWorded, WordingIsRead};
ghost use Rattle.cdb_model.specs.Writing.{ReadingHasForm, WritingReadsBack};

/// The law of the grammar: each line whose words have their forms has a canonical writing, which
/// reads back as the line, and what is read of any line has words of their forms.
pub fn writing_reads_back()
    ensures back { WritingReadsBack }
    ensures formed { ReadingHasForm }
{}

/// What is read of a line is spelled by it: the line is the words of what was read with one space
/// between each two, and each number among them is spelled by its word, with or without leading
/// zeros. So nothing of a line is dropped, not even a space at its end. And each line that is spelled so
/// is read as what it spells, so none is refused.
pub fn reading_is_worded()
    ensures worded { ReadingIsWorded }
    ensures read { WordingIsRead }
{}

/// A line is one thing: two readings of its bytes say the same sentence, or refuse it for the same
/// reason, and where its file name is no tile's, at the same place of the name. What it says is one
/// event, with the file that a source names.
pub fn one_reading()
    ensures reading { OneReading }
    ensures event { OneEvent }
{}
