//! Laws of a piece's turn.
ghost use Rattle.piece_turn.specs.Ends.{BadUrlsFail, EachHasCause};

/// Law: a piece that failed has a cause: its URL, a call that failed, or the verdict on its last reply.
pub fn each_failure_has_a_cause()
    ensures { EachHasCause }
{}

/// Law: a piece whose URL leads nowhere fails for it, with one try.
pub fn bad_urls_fail()
    ensures { BadUrlsFail }
{}
