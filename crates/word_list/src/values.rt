//! Texts, selectors and templates as values.

ghost use Rattle.std.specs.Prelude.{◌≡◌};
ghost use Rattle.std.specs.List.{list_all, list_any};
ghost use Rattle.sel_lang.specs.View.{plain};
ghost use Rattle.word_list.specs.Faults.{Gives};
ghost use Rattle.word_list.specs.Values as spec;

use crate::fault::{OptionFault, ValueFault};
use name_text::check_path;
use sel_lang::{Sel, read_sel};
use std::alloc::Global;
use text_base::Text;
use tpl_lang::{Part, Template, read_template};

/// A text that is not empty.
#[tactic(auto, unfolding(crate::specs::Values::some_text))]
pub fn some_text(alloc: Global, value: &str) -> Result<Text, ValueFault>
    ensures { Gives (λ t. t) result (spec.some_text value.now) }
{
    if value.is_empty() {
        return Err(ValueFault::Bad(OptionFault::BadValue));
    }
    Ok(Text::new(alloc, value)?)
}

/// The selector that a value is.
#[tactic(auto, unfolding(crate::specs::Values::selector_of))]
pub fn selector(alloc: Global, value: &str) -> Result<Sel, ValueFault>
    ensures { Gives plain result (spec.selector_of value.now) }
{
    if value.is_empty() {
        return Err(ValueFault::Bad(OptionFault::BadValue));
    }
    match read_sel(alloc, value) {
        Ok(sel) => Ok(sel),
        Err(fault) => Err(ValueFault::from(fault)),
    }
}

/// The template that a value is.
#[tactic(auto, unfolding(crate::specs::Values::template_by))]
pub fn template(alloc: Global, value: &str) -> Result<Template, ValueFault>
    ensures { Gives (λ t. t) result (spec.template_by value.now) }
{
    match read_template(alloc, value) {
        Ok(template) => Ok(template),
        Err(fault) => Err(ValueFault::from(fault)),
    }
}

/// The template that is printed: a name of a field is that field, another value is a template.
#[tactic(auto, unfolding(crate::specs::Values::print_of))]
pub fn printed(alloc: Global, value: &str) -> Result<Template, ValueFault>
    ensures { Gives (λ t. t) result (spec.print_of value.now) }
{
    if !is_field_name(value) {
        return template(alloc, value);
    }
    let field = format!(in alloc; "%({value})s")?;
    template(alloc, field.as_str())
}

/// Whether a value is the name of a field.
fn is_field_name(value: &str) -> bool
    ensures { result ≡ spec.is_field_name value.now }
{
    !value.is_empty() && are_name_bytes(value.as_bytes())
}

fn are_name_bytes(bytes: &[u8]) -> bool
    ensures { result ≡ list_all spec.is_name_byte bytes.now }
{
    bytes
        .iter()
        .all(|byte| byte.is_ascii_alphanumeric() || *byte == b'_')
}

/// The template of a command: the file's path stands at its end where it has no field.
#[tactic(auto, unfolding(crate::specs::Values::command_of))]
pub fn command(alloc: Global, value: &str) -> Result<Template, ValueFault>
    ensures { Gives (λ t. t) result (spec.command_of value.now) }
{
    if value.is_empty() {
        return Err(ValueFault::Bad(OptionFault::BadValue));
    }
    let command = template(alloc, value)?;
    if has_field(command.parts()) {
        return Ok(command);
    }
    let with_path = format!(in alloc; "{value} %(filepath)q")?;
    template(alloc, with_path.as_str())
}

fn has_field(parts: &[Part]) -> bool
    ensures { result ≡ list_any spec.is_field parts.now }
{
    parts.iter().any(|part| matches!(part, Part::Field(_)))
}

/// The name of an archive.
#[tactic(auto, unfolding(crate::specs::Values::archive_of))]
pub fn archive(alloc: Global, value: &str) -> Result<Text, ValueFault>
    ensures { Gives (λ t. t) result (spec.archive_of value.now) }
{
    let spare = format!(in alloc; "{value}.new")?;
    if !is_path(value) || !is_path(spare.as_str()) {
        return Err(ValueFault::Bad(OptionFault::BadValue));
    }
    Ok(Text::new(alloc, value)?)
}

/// Whether a name is the path of a file below the folder.
fn is_path(name: &str) -> bool
    ensures { result ≡ spec.is_path name.now }
{
    match check_path(name) {
        Ok(()) => true,
        Err(_) => false,
    }
}
