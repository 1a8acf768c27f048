//! The other end of a line.
ghost use Rattle.std.specs.Prelude.{◌≡◌, ◌≤◌, ◌<◌, ◌↔◌, ◌+◌, Some, IsTrue, IsSome, IfOk, OnErr, IsOk, is_err, false, length, take, None};
ghost use Rattle.link_http.specs.Wire.{Wire, Counts, has_failed, Dials, Sends, Hears, AsksNothing};

use text_base::{Failed, FolderFault};

/// What opens connections, one at a time. Its clauses on content hold where it tells.
///
/// A call answers `Failed` where the count of faults rose in it, and each call that answers
/// otherwise, want of memory among it, leaves that count alone.
pub trait Dialer {
    /// What the dialer is and was, and its count.
    ghost wire: { Self → Wire };

    /// Opens a connection, and ends the one that stands.
    fn dial(&mut self, host: &str, port: u16) -> Result<(), FolderFault>
        ensures counts { Counts (wire self.old) (wire self.new) (has_failed result) }
        ensures connected { IsSome (wire self.new).line ↔ IsOk result }
        ensures told { IsTrue (wire self.new).tells
            → Dials host.now port (wire self.old) (wire self.new) result };

    /// Sends some of the bytes, one at least, and answers how many. With the last byte of a request,
    /// which ends with its empty line, that is asked.
    fn send(&mut self, bytes: &[u8]) -> Result<usize, FolderFault>
        requires connected { IsSome (wire self.old).line }
        requires some { 0 < length bytes.now }
        ensures counts { Counts (wire self.old) (wire self.new) (has_failed result) }
        ensures connected { IsSome (wire self.new).line }
        ensures sent { IfOk result (λ n. (0 < n) × (n ≤ length bytes.now)) }
        ensures kept { IsTrue (wire self.new).tells
            → OnErr result (AsksNothing (wire self.old) (wire self.new)) }
        ensures told { IsTrue (wire self.new).tells
            → IfOk result (λ n. Sends (take n bytes.now) (wire self.old) (wire self.new)) };

    /// Reads some of the reply to the front of the buffer, and answers how many bytes:
    /// 0 for a non-empty buffer only at the end of the reply.
    fn recv(&mut self, buf: &mut [u8]) -> Result<usize, Failed>
        requires connected { IsSome (wire self.old).line }
        ensures counts { Counts (wire self.old) (wire self.new) (is_err result) }
        ensures connected { IsSome (wire self.new).line }
        ensures placed { IfOk result (λ n. n ≤ length buf.new) }
        ensures asks { IsTrue (wire self.new).tells → AsksNothing (wire self.old) (wire self.new) }
        ensures told { IsTrue (wire self.new).tells
            → IfOk result (λ n. Hears (length buf.old) n buf.new (wire self.old) (wire self.new)) };

    /// Ends the connection that stands; where none stands it does nothing.
    fn hang_up(&mut self)
        ensures counts { Counts (wire self.old) (wire self.new) false }
        ensures ended { (wire self.new).line ≡ None }
        ensures none { (wire self.old).line ≡ None → wire self.new ≡ wire self.old }
        ensures told { IsTrue (wire self.new).tells → AsksNothing (wire self.old) (wire self.new) };
}
