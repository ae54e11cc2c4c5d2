//! What a caller may rely on beside the answers.
ghost use Rattle.clk_file.specs.Laws.{WordsAreSpelled};

/// A string is a script word exactly where it is that word's spelling: its name, and behind one space its number in
/// decimal of at most nine digits.
pub fn words_are_spelled()
    ensures { WordsAreSpelled }
{}
