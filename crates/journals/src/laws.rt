//! Laws of lines and answers.
ghost use Rattle.journals.specs.Laws.{LinesReadBack, JournalsReadBack, SheetsShown};

/// The text of a line says just what was written, of every line whose numbers fit their bytes.
pub fn lines_read_back()
    ensures { LinesReadBack }
{}

/// And so does a journal of such lines, each ended by byte 10.
pub fn journals_read_back()
    ensures { JournalsReadBack }
{}

/// A line that asks for a sheet and says no length is answered as if it had lent a buffer just as long as the sheet.
pub fn sheets_shown()
    ensures { SheetsShown }
{}
