//! Which descriptions are read, and from which texts.

ghost use Rattle.coll_lang.specs.Readable.{ReadsExactly};

/// A text is read as a description exactly where the description is readable and the text is its one spelling: it is well
/// formed, has the values that its shape asks, or is a choice text and nothing else, and its text isn't too long. So two
/// texts never describe the same, and whatever makes a readable description may write its text and have it read.
pub fn reads_exactly()
    ensures exactly { ReadsExactly }
{}
