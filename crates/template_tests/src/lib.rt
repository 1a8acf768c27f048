//! Tests of templates, of what fields print, and of texts in names and printed lines.
#![tactic(auto)]

#[cfg(test)]
mod field_texts;
#[cfg(test)]
mod fills;
#[cfg(test)]
mod names;
#[cfg(test)]
mod templates;
