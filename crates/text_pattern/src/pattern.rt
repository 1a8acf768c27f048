ghost use Rattle.std.specs.Prelude.{◌≡◌, IfOk, IfErr, true};
ghost use Rattle.text_pattern.specs.Patterns.{is_pattern, IsRefusal};

use crate::fault::PatternFault;
use crate::finder::Finder;
use regex::Regex;
use std::alloc::Global;
use std::marker::Model;
use text_base::OutOfMemory;

/// A pattern by the grammar of the `regex` crate, with its default options and limits. Contracts see it as
/// the list of its text's UTF-8 bytes.
#[derive(Debug, Drop)]
pub struct Pattern {
    regex: Regex,
}

impl Model for Pattern {
    ghost use Rattle.std.specs.Prelude.{List, ℕ};
    ghost use Rattle.regex.specs.Strings.{regex_source, regex_pattern};
    ghost use Rattle.text_pattern.specs.Patterns.{Finds};

    ghost Value = { List ℕ };

    ghost view = { λ p. regex_source p.regex };

    ghost invariant = { λ p. Finds (regex_pattern p.regex) (regex_source p.regex) };
}

impl Pattern {
    /// The pattern that a text is.
    pub fn new(alloc: Global, text: &str) -> Result<Pattern, PatternFault>
        ensures text { IfOk result (λ p. p ≡ text.now) }
        ensures pattern { IfOk result (λ _. is_pattern text.now ≡ true) }
        ensures fault { IfErr result (IsRefusal text.now) }
    {
        let regex = Regex::new(alloc, text)?;
        Ok(Pattern { regex })
    }

    /// The pattern's text.
    pub fn as_str(&self) -> &str
        ensures { result.now ≡ self.now }
    {
        self.regex.as_str()
    }

    /// What looks for the pattern; it takes up to some MiB of memory, so one serves many texts.
    pub fn finder(&self, alloc: Global) -> Result<Finder<'_>, OutOfMemory>
        ensures { IfOk result (λ f. f ≡ self.now) }
    {
        Ok(Finder::new(self, self.regex.matcher(alloc)?))
    }
}
