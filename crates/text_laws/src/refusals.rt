//! The table of refusals as laws over whole lines and whole texts: which rows a line offends, given the lines before it, and
//! that the lowest line counts, and on it the row of the lowest number.

ghost use Rattle.text_laws.specs.refusals.Grammar.{WordsByTheTable};
ghost use Rattle.text_laws.specs.refusals.Rows.{ByTheRows};
ghost use Rattle.text_laws.specs.refusals.Texts.{LinesCount, TextsByTheRows};

/// A line that is due is refused by the lowest row that it offends, and taken exactly where it offends none. This stands wherever
/// the earlier lines' prints are counted and their groups have members, as is so after all lines that are taken from the
/// first one on.
pub fn refused_by_the_rows()
    ensures rows { ByTheRows }
    ensures counted { LinesCount }
{}

/// A text is refused exactly where it offends a row: TooLong first, with the line 0, then the lowest line, counted from 1, and on
/// it the lowest row. A line that is due but has no LF is Unended, and bytes after the last line are AfterEnd, with the
/// line after it.
pub fn texts_refused_by_the_rows()
    ensures rows { TextsByTheRows }
{}

/// The words of a line say what may stand there exactly where they are those of a line of the table that may.
pub fn words_by_the_table()
    ensures table { WordsByTheTable }
{}
