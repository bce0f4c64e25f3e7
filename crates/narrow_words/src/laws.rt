//! What holds of narrow words. The function runs nothing; its contract is a law.

ghost use Rattle.narrow_words.specs.Laws.{NarrowWordsAreSigned};

/// In the text a word below 2^32 stands as itself behind `+` up to 2^31, and else as 2^32 less it behind `-`.
pub fn narrow_words_are_signed()
    ensures { NarrowWordsAreSigned }
{}
