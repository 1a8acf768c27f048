ghost use Rattle.std.specs.Prelude.{◌≡◌, IfOk};
ghost use Rattle.sel_lang.specs.Plain.{test_op, test_value};
ghost use Rattle.sel_eval.specs.Holds.{fits};
ghost use Rattle.sel_eval.specs.Matchers.{matcher_op, matcher_value};

use memchr::memmem;
use sel_lang::TextTest;
use std::alloc::Global;
use text_base::OutOfMemory;
use text_pattern::Finder;

/// What compares texts for a filter; it is made once for all formats.
#[derive(Drop)]
pub(crate) enum Matcher<'f> {
    Eq(&'f str),
    Prefix(&'f str),
    Suffix(&'f str),
    Contains(memmem::Finder<'f>),
    Matches(Finder<'f>),
}

impl<'f> Matcher<'f> {
    pub(crate) fn new(alloc: Global, test: &'f TextTest) -> Result<Matcher<'f>, OutOfMemory>
        ensures op { IfOk result (λ m. matcher_op m ≡ test_op test.entry.now) }
        ensures value { IfOk result (λ m. matcher_value m ≡ test_value test.entry.now) }
    {
        Ok(match test {
            TextTest::Eq(value) => Matcher::Eq(value.as_str()),
            TextTest::Prefix(value) => Matcher::Prefix(value.as_str()),
            TextTest::Suffix(value) => Matcher::Suffix(value.as_str()),
            TextTest::Contains(value) => {
                Matcher::Contains(memmem::Finder::new(value.as_str().as_bytes()))
            }
            TextTest::Matches(pattern) => Matcher::Matches(pattern.finder(alloc)?),
        })
    }

    /// Whether a text fits.
    pub(crate) fn fits(&mut self, text: &str) -> bool
        ensures fits { result ≡ fits (matcher_op self.old) (matcher_value self.old) text.now }
        ensures op { matcher_op self.new ≡ matcher_op self.old }
        ensures value { matcher_value self.new ≡ matcher_value self.old }
    {
        match self {
            Matcher::Eq(value) => text == *value,
            Matcher::Prefix(value) => text.starts_with(*value),
            Matcher::Suffix(value) => text.ends_with(*value),
            Matcher::Contains(finder) => finder.find(text.as_bytes()).is_some(),
            Matcher::Matches(finder) => finder.finds(text),
        }
    }
}
