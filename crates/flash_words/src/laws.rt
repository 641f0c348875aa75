//! What holds of every list of words.
ghost use Rattle.flash_words.specs.Words.{Law};

/// A list of words is a command just where it is that command's words, written out; so it is no
/// two commands.
pub fn words_are_written_out()
    ensures { Law }
{}
