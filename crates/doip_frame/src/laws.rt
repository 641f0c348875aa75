ghost use Rattle.doip_frame.specs.Laws.{AnyPieces, IsReadAgain, IsOnlyOne, IgnoresReserved};

/// However a stream is cut into pieces, the frames, what is held and the refusals are those of all its bytes.
pub fn any_pieces()
    ensures { AnyPieces }
{}

/// What is written is read again as that frame, whatever stands behind it.
pub fn read_again()
    ensures { IsReadAgain }
{}

/// No frame's bytes begin another's.
pub fn only_one()
    ensures { IsOnlyOne }
{}

/// Reserved bytes are read as anything.
pub fn ignores_reserved()
    ensures { IgnoresReserved }
{}
