ghost use Rattle.std.specs.Prelude.{◌≡◌, ◌≤◌, ◌+◌, ◌-◌, ℕ, List, slice_range, min, IfSome, length};
ghost use Rattle.http_reply.specs.Chunked.{limit};
ghost use Rattle.http_reply.specs.Content.{Content};
ghost use Rattle.link_http.specs.Body.{Cuts, IsWanting, HasRoom};

use crate::share::Share;

/// Which part of the next bytes is in a share, and the share after them, if it is not full.
#[derive(Clone, Copy)]
pub struct Cut {
    pub from: usize,
    pub to: usize,
    pub rest: Option<Share>,
}

/// What of the next n bytes is in a share.
pub fn part_of(share: Share, n: usize) -> Cut
    requires { (p : ℕ) × (spare : ℕ) × (p + n ≤ limit) × HasRoom share p spare }
    ensures ordered { result.from ≤ result.to }
    ensures within { result.to ≤ n }
    ensures wanting { IfSome result.rest IsWanting }
    ensures room { (p spare : ℕ) → p + n ≤ limit → HasRoom share p spare → (result.to - result.from ≤ spare)
        × IfSome result.rest (λ rest. HasRoom rest (p + n) (spare - (result.to - result.from))) }
    ensures cuts { (piece : List ℕ) (c : Content) → length piece ≡ n
        → Cuts result.rest share (slice_range piece result.from result.to) piece c }
{
    match share {
        Share::After { skip, passed } => {
            let from = below(skip, n);
            let rest = Share::After {
                skip: skip - from as u64,
                passed: passed + n as u64,
            };
            Cut {
                from,
                to: n,
                rest: Some(rest),
            }
        }
        Share::Upto { left, passed } => {
            if left <= n as u64 {
                return Cut {
                    from: 0,
                    to: left as usize,
                    rest: None,
                };
            }
            let rest = Share::Upto {
                left: left - n as u64,
                passed: passed + n as u64,
            };
            Cut {
                from: 0,
                to: n,
                rest: Some(rest),
            }
        }
    }
}

/// The lesser one.
fn below(skip: u64, n: usize) -> usize
    ensures { result ≡ min skip n }
{
    if skip < n as u64 { skip as usize } else { n }
}
