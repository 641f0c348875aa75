ghost use Rattle.uds_codec.specs.Laws.{IsReadAgain, IsWrittenAgain, IsGrammar, IsDetermined, AreBeginnings};

/// What is written is read again as the same request.
pub fn read_again()
    ensures { IsReadAgain }
{}

/// What is read has a spelling, and is written as the bytes that it was read from.
pub fn written_again()
    ensures { IsWrittenAgain }
{}

/// What is read is in the grammar, and what is in the grammar is read.
pub fn grammar()
    ensures { IsGrammar }
{}

/// One request has one spelling for its width, and a spelling one request.
pub fn determined()
    ensures { IsDetermined }
{}

/// Bytes begin a request exactly where some bytes behind them make one.
pub fn beginnings()
    ensures { AreBeginnings }
{}
