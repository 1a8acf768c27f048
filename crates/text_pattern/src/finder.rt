ghost use Rattle.std.specs.Prelude.{◌≡◌};
ghost use Rattle.regex.specs.Strings.{matcher_pattern};
ghost use Rattle.text_pattern.specs.Patterns.{Finds, matches};

use crate::pattern::Pattern;
use regex::Matcher;
use std::marker::Model;

/// What looks for a pattern. Contracts see it as the pattern's text.
#[derive(Drop)]
pub struct Finder<'p> {
    pattern: &'p Pattern,
    matcher: Matcher<'p>,
}

impl<'p> Model for Finder<'p> {
    ghost use Rattle.std.specs.Prelude.{List, ℕ};
    ghost use Rattle.regex.specs.Strings.{matcher_pattern};
    ghost use Rattle.text_pattern.specs.Patterns.{Finds};

    ghost Value = { List ℕ };

    ghost view = { λ f. f.pattern.now };

    ghost invariant = { λ f. Finds (matcher_pattern f.matcher) f.pattern.now };
}

impl<'p> Finder<'p> {
    pub(crate) fn new(pattern: &'p Pattern, matcher: Matcher<'p>) -> Finder<'p>
        requires { Finds (matcher_pattern matcher) pattern.now }
        ensures { result ≡ pattern.now }
    {
        Finder { pattern, matcher }
    }

    /// Whether the pattern matches anywhere in a text.
    pub fn finds(&mut self, text: &str) -> bool
        ensures found { result ≡ matches self.old text.now }
        ensures same { self.new ≡ self.old }
    {
        self.matcher.is_match(text)
    }
}
