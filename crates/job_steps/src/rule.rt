//! Rules of extensions.

use text_base::Text;

/// A file with one extension becomes one with another.
#[derive(Debug, Drop)]
pub struct ExtRule {
    /// The extension that the rule is for; without it the rule is for each.
    pub from: Option<Text>,
    pub to: Text,
}
