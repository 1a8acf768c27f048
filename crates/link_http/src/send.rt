//! A request, sent whole.
ghost use Rattle.std.specs.Prelude.{◌≡◌, ◌⊎◌, ℕ, IsTrue, IsSome, IfErr, OnOk, OnErr, Some};
ghost use Rattle.link_http.specs.Wire.{Wire, Counts, AsksNothing};
ghost use Rattle.link_http.specs.Request.{Place};
ghost use Rattle.link_http.specs.Taking.{names_call};
ghost use Rattle.link_http.specs.Sending.{IsWholeText, fresh, Asked};

use crate::dialer::Dialer;
use http_reply::PieceFault;
use text_base::FolderFault;

/// Sends the text of a request.
pub fn send_all<D: Dialer>(dialer: &mut D, text: &[u8]) -> Result<(), PieceFault>
    requires connected { IsSome (D.wire dialer.old).line }
    requires whole { IsWholeText text.now }
    ensures counts { Counts (D.wire dialer.old) (D.wire dialer.new) (names_call result) }
    ensures connected { IsSome (D.wire dialer.new).line }
    ensures fault { IfErr result
        (λ fault. (fault ≡ PieceFault.Send) ⊎ (fault ≡ PieceFault.OutOfMemory)) }
    ensures kept { IsTrue (D.wire dialer.new).tells → (place : Place) (dial : ℕ)
        → (D.wire dialer.old).line ≡ Some (fresh place dial)
        → OnErr result (AsksNothing (D.wire dialer.old) (D.wire dialer.new)) }
    ensures asked { IsTrue (D.wire dialer.new).tells → (place : Place) (dial : ℕ)
        → (D.wire dialer.old).line ≡ Some (fresh place dial)
        → OnOk result (Asked place dial text.now (D.wire dialer.old) (D.wire dialer.new)) }
{
    let mut at = 0;
    while at < text.len() {
        let (_, rest) = text.split_at(at);
        match dialer.send(rest) {
            Ok(n) => at += n,
            Err(FolderFault::Failed) => return Err(PieceFault::Send),
            Err(FolderFault::OutOfMemory) => return Err(PieceFault::OutOfMemory),
        }
    }
    Ok(())
}
