//! Templates, read from left to right to the first fault.

ghost use Rattle.std.specs.Prelude.{◌≡◌, Ok, IfOk, IfErr, take, drop};
ghost use Rattle.std.specs.List.{prefix_len};
ghost use Rattle.read_base.specs.Reads.{Gives};
ghost use Rattle.tpl_lang.specs.Reading as spec;

use crate::fault::TplFault;
use crate::field_reading::field;
use crate::listed::{Listed, all_of};
use crate::scan::behind;
use crate::template::{Part, Template};
use crate::tpl_kind::TplKind;
use read_base::ReadError;
use std::alloc::Global;
use text_base::{Text, first_name_special};

/// Another piece of a template.
impl Listed for Part {
    ghost use Rattle.tpl_lang.specs.Reading.{is_left, part_at};

    ghost test = { is_left };

    ghost item = { part_at };

    fn begins(text: &str) -> bool {
        !text.is_empty()
    }

    fn read(alloc: Global, text: &str) -> Result<(Part, &str), ReadError<TplKind>> {
        part(alloc, text)
    }
}

/// How many bytes stand before the next percent sign.
fn plain_len(text: &str) -> usize
    ensures { result ≡ prefix_len spec.is_plain text.now }
{
    let bytes = text.as_bytes();
    let mut at = first_name_special(bytes, 0);
    while at < bytes.len() && bytes[at] != b'%' {
        at = first_name_special(bytes, at + 1);
    }
    at
}

/// What begins with a percent sign.
#[tactic(auto, unfolding(crate::specs::Reading::percent_at))]
fn percent(alloc: Global, text: &str) -> Result<(Part, &str), ReadError<TplKind>>
    ensures { Gives (λ x. (x.0, x.1.now)) result (spec.percent_at text.now) }
{
    if let Some(inside) = behind(b'(', text) {
        let (field, rest) = field(alloc, inside)?;
        return Ok((Part::Field(field), rest));
    }
    let sign = Text::new(alloc, "%")?;
    Ok((Part::Literal(sign), behind(b'%', text).unwrap_or(text)))
}

/// A piece of a template.
#[tactic(auto, unfolding(crate::specs::Reading::part_at))]
fn part(alloc: Global, text: &str) -> Result<(Part, &str), ReadError<TplKind>>
    ensures { Gives (λ x. (x.0, x.1.now)) result (spec.part_at text.now) }
{
    if let Some(behind) = behind(b'%', text) {
        return percent(alloc, behind);
    }
    let (plain, rest) = text.split_at(plain_len(text));
    Ok((Part::Literal(Text::new(alloc, plain)?), rest))
}

/// All pieces of a template.
#[tactic(auto, unfolding(crate::specs::Reading::whole_at))]
fn whole(alloc: Global, text: &str) -> Result<Template, ReadError<TplKind>>
    ensures { Gives (λ t. t) result (spec.whole_at text.now) }
{
    let (parts, _) = all_of::<Part>(alloc, text)?;
    Ok(Template::new(parts))
}

/// The template that a text is. A text of 100,000 fields takes ten times as long as one of 10,000.
pub fn read_template(alloc: Global, text: &str) -> Result<Template, TplFault>
    ensures template { IfOk result (λ t. spec.template_of text.now ≡ Ok t) }
    ensures fault { IfErr result (λ e. spec.IsRefusal (spec.template_of text.now) e) }
{
    match whole(alloc, text) {
        Ok(template) => Ok(template),
        Err(ReadError::OutOfMemory) => Err(TplFault::OutOfMemory),
        Err(ReadError::Fault { kind, left }) => {
            let at = text.len().saturating_sub(left);
            Err(match kind {
                TplKind::Syntax | TplKind::Brace | TplKind::Step => TplFault::Syntax { at },
                TplKind::TypeLetter => TplFault::TypeLetter { at },
                TplKind::Directive => TplFault::Directive { at },
            })
        }
    }
}
