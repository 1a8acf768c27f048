//! Selectors, read from left to right to the first fault.

ghost use Rattle.std.specs.Prelude.{◌≡◌, Ok, IfOk, map, IfErr, length, true};
ghost use Rattle.read_base.specs.Reads.{Gives, is_at, all_at};
ghost use Rattle.sel_lang.specs.Plain.{plain_filter, narrow, narrowed, name};
ghost use Rattle.sel_lang.specs.Names.{best};
ghost use Rattle.sel_lang.specs.View.{plain};
ghost use Rattle.sel_lang.specs.Filters.{filter_at};
ghost use Rattle.sel_lang.specs.Spelled.{IsSpelled};
ghost use Rattle.sel_lang.specs.Reading.{is_next, behind, filtered, operand_at, level_at, group_at, atom_at, mark_of, whole_at, sel_of, IsRefusal, fault_of};

use crate::filter::Filter;
use crate::filter_reading::filter;
use crate::joint::Joint;
use crate::marks::{begins, behind, name_word, next, past, syntax};
use crate::naming::pick_of;
use crate::pick::{Media, Pick};
use crate::sel::Sel;
use crate::sel_fault::SelFault;
use crate::sel_kind::SelKind;
use read_base::ReadError;
use std::alloc::Global;
use text_base::{OutOfMemory, without_first_spaces};

/// How deep groups may nest.
const DEPTH: usize = 64;

/// The filters at the front of a text.
fn filters(alloc: Global, text: &str) -> Result<(Vec<Filter>, &str), ReadError<SelKind>>
    ensures { Gives (λ x. (map plain_filter x.0.items, x.1.now)) result
        (all_at (is_next 91) (behind filter_at) text.now) }
{
    let mut all = Vec::new(alloc);
    let mut rest = text;
    for _ in 0..text.len() {
        let Some(behind) = next(b'[', rest) else {
            break;
        };
        let (one, left) = filter(alloc, behind)?;
        all.push(one)?;
        rest = left;
    }
    Ok((all, rest))
}

/// A selector narrowed by a filter.
fn narrowed_by(alloc: Global, inner: Sel, filter: Filter) -> Result<Sel, OutOfMemory>
    ensures { IfOk result (λ s. plain s ≡ narrow (plain inner) (plain_filter filter)) }
{
    Ok(Sel::Narrow(Box::new(alloc, inner)?, filter))
}

/// A selector narrowed by one filter after the other.
fn narrow_all(alloc: Global, inner: Sel, filters: Vec<Filter>) -> Result<Sel, OutOfMemory>
    ensures { IfOk result (λ s. plain s ≡ narrowed (plain inner) (map plain_filter filters.items)) }
{
    let mut sel = inner;
    for filter in filters {
        let outer = narrowed_by(alloc, sel, filter)?;
        sel = outer;
    }
    Ok(sel)
}

/// A selector with the filters that stand behind it.
#[tactic(auto, unfolding(crate::specs::Reading::filtered))]
fn filtered<'a>(
    alloc: Global,
    inner: Sel,
    text: &'a str,
) -> Result<(Sel, &'a str), ReadError<SelKind>>
    ensures { Gives (λ x. (plain x.0, x.1.now)) result (filtered (plain inner) text.now) }
{
    let (filters, rest) = filters(alloc, text)?;
    Ok((narrow_all(alloc, inner, filters)?, rest))
}

/// `best`, which filters alone stand on.
fn best() -> Sel
    ensures { plain result ≡ name best }
{
    Sel::Name(Pick::Ranked {
        worst: false,
        media: Media::Any,
        star: false,
        n: 1,
    })
}

/// A group, filters alone or a name, with the filters behind it.
#[cycle(read)]
#[tactic(auto, unfolding(crate::specs::Reading::atom_at, crate::specs::Reading::atom_over))]
fn atom(alloc: Global, groups: usize, text: &str) -> Result<(Sel, &str), ReadError<SelKind>>
    ensures { Gives (λ x. (plain x.0, x.1.now)) result (atom_at groups text.now) }
{
    let text = without_first_spaces(text);
    if begins(b'(', text) {
        let (inner, rest) = group(alloc, groups, text)?;
        let rest = behind(b')', without_first_spaces(rest))?;
        filtered(alloc, inner, rest)
    } else if begins(b'[', text) {
        filtered(alloc, best(), text)
    } else {
        let (word, rest) = name_word(text)?;
        let pick = pick_of(alloc, word)?;
        filtered(alloc, Sel::Name(pick), rest)
    }
}

/// What stands between the brackets of a group.
#[cycle(read)]
fn group(alloc: Global, groups: usize, text: &str) -> Result<(Sel, &str), ReadError<SelKind>>
    requires { is_at 40 text.now ≡ true }
    ensures { Gives (λ x. (plain x.0, x.1.now)) result (group_at groups text.now) }
{
    if groups == 0 {
        return Err(ReadError::Fault {
            kind: SelKind::Depth,
            left: text.len(),
        });
    }
    joined(alloc, Joint::Comma, groups - 1, past(b'(', text))
}

/// Operands with the mark of a joint between them.
#[cycle(read)]
#[tactic(auto, unfolding(crate::specs::Reading::joined_at))]
fn joined(
    alloc: Global,
    joint: Joint,
    groups: usize,
    text: &str,
) -> Result<(Sel, &str), ReadError<SelKind>>
    ensures { Gives (λ x. (plain x.0, x.1.now)) result (level_at joint groups text.now) }
{
    let (first, rest) = operand(alloc, joint, groups, text)?;
    let (others, rest) = others(alloc, joint, groups, rest)?;
    if others.is_empty() {
        return Ok((first, rest));
    }
    let mut all = others;
    all.insert(0, first)?;
    Ok((
        match joint {
            Joint::Comma => Sel::List(all),
            Joint::Slash => Sel::First(all),
            Joint::Plus => Sel::Merge(all),
        },
        rest,
    ))
}

/// An operand of a joint: what binds tighter.
#[cycle(read)]
fn operand(
    alloc: Global,
    joint: Joint,
    groups: usize,
    text: &str,
) -> Result<(Sel, &str), ReadError<SelKind>>
    ensures { Gives (λ x. (plain x.0, x.1.now)) result (operand_at joint groups text.now) }
{
    match joint {
        Joint::Comma => joined(alloc, Joint::Slash, groups, text),
        Joint::Slash => joined(alloc, Joint::Plus, groups, text),
        Joint::Plus => atom(alloc, groups, text),
    }
}

/// The operands behind the first one, each behind the mark.
#[cycle(read)]
fn others(
    alloc: Global,
    joint: Joint,
    groups: usize,
    text: &str,
) -> Result<(Vec<Sel>, &str), ReadError<SelKind>>
    ensures { Gives (λ x. (map plain x.0.items, x.1.now)) result
        (all_at (is_next (mark_of joint)) (behind (operand_at joint groups)) text.now) }
{
    let mut all = Vec::new(alloc);
    let mut rest = text;
    for _ in 0..text.len() {
        let Some(behind) = next(joint.mark(), rest) else {
            break;
        };
        let (one, left) = operand(alloc, joint, groups, behind)?;
        all.push(one)?;
        rest = left;
    }
    Ok((all, rest))
}

/// The selector that a whole text is.
#[tactic(auto, unfolding(crate::specs::Reading::whole_at))]
fn whole(alloc: Global, text: &str) -> Result<Sel, ReadError<SelKind>>
    ensures { Gives plain result (whole_at text.now) }
{
    let (sel, rest) = joined(alloc, Joint::Comma, DEPTH, text)?;
    let rest = without_first_spaces(rest);
    if !rest.is_empty() {
        return Err(syntax(rest));
    }
    Ok(sel)
}

/// The fault of a kind at a place.
fn fault(kind: SelKind, at: usize) -> SelFault
    ensures { result ≡ fault_of kind at }
{
    match kind {
        SelKind::Syntax | SelKind::Quote => SelFault::Syntax { at },
        SelKind::Field => SelFault::Field { at },
        SelKind::Value => SelFault::Value { at },
        SelKind::Regex => SelFault::Regex { at },
        SelKind::Depth => SelFault::Depth { at },
    }
}

/// The selector that a text is.
#[tactic(auto, using(crate::proofs::ReadSpellsLemmas::sel_spells))]
pub fn read_sel(alloc: Global, text: &str) -> Result<Sel, SelFault>
    ensures sel { IfOk result (λ s. sel_of text.now ≡ Ok (plain s)) }
    ensures spelled { IfOk result (λ s. IsSpelled text.now (plain s)) }
    ensures fault { IfErr result (IsRefusal (sel_of text.now)) }
{
    match whole(alloc, text) {
        Ok(sel) => Ok(sel),
        Err(ReadError::OutOfMemory) => Err(SelFault::OutOfMemory),
        Err(ReadError::Fault { kind, left }) => Err(fault(kind, text.len().saturating_sub(left))),
    }
}
