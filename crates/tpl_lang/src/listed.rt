//! Items that stand one after the other.

ghost use Rattle.std.specs.Prelude.{◌≡◌};
ghost use Rattle.read_base.specs.Reads.{Gives, all_at};

use crate::tpl_kind::TplKind;
use read_base::ReadError;
use std::alloc::Global;

/// An item of a list, by the mark or the byte that begins it.
pub(crate) trait Listed: Drop {
    ghost use Rattle.std.specs.Prelude.{◌≡◌, ℕ, List, Bool, true};
    ghost use Rattle.read_base.specs.Reads.{Gives, Read};
    ghost use Rattle.tpl_lang.specs.declared.tpl_kind.TplKind.{TplKind as Kinds};

    ghost test: { List ℕ → Bool };

    ghost item: { List ℕ → Read Kinds Self };

    fn begins(text: &str) -> bool
        ensures { result ≡ test text.now };

    fn read(alloc: Global, text: &str) -> Result<(Self, &str), ReadError<TplKind>>
        requires { test text.now ≡ true }
        ensures { Gives (λ x. (x.0, x.1.now)) result (item text.now) };
}

/// All items that stand at the front, and what stands behind them.
pub(crate) fn all_of<T: Listed>(
    alloc: Global,
    text: &str,
) -> Result<(Vec<T>, &str), ReadError<TplKind>>
    ensures { Gives (λ x. (x.0.items, x.1.now)) result (all_at T.test T.item text.now) }
{
    let mut all = Vec::new(alloc);
    let mut rest = text;
    for _ in 0..text.len() {
        if !T::begins(rest) {
            break;
        }
        let (one, after) = T::read(alloc, rest)?;
        all.push(one)?;
        rest = after;
    }
    Ok((all, rest))
}
