//! Laws of lines.
ghost use Rattle.line_laws.specs.Parts.{RecordsAreLines};
ghost use Rattle.line_laws.specs.Shown.{LinesDiffer, LinesShow};

/// The line of each record is the text of what the record shows.
pub fn lines_show_their_records()
    ensures { LinesShow }
{}

/// Two records that fit and have one line show the same: so records that show different things have different lines.
pub fn different_records_have_different_lines()
    ensures { LinesDiffer }
{}

/// A record whose parts are what they have to be to stand in a packet is a line: it shows something that fits.
pub fn records_are_lines()
    ensures { RecordsAreLines }
{}
