//! Words, read from the left.

ghost use Rattle.std.specs.Prelude.{◌≡◌, ◌⊎◌, ◌<◌, ◌≤◌, ◌∷◌, length, Ok, Err, IfOk, IfErr};
ghost use Rattle.word_list.specs.declared.fault.WordsFault.TheVariants as fault;
ghost use Rattle.word_list.specs.Views.{plain_settings, plain_options};
ghost use Rattle.word_list.specs.Words.{words_of, rest_of, HaveAnOrder};

use crate::fault::{OptionFault, WordsFault, bad};
use crate::form::{Form, form_of};
use crate::options::Options;
use crate::settings::Settings;
use std::alloc::Global;
use text_base::Text;

/// What the words ask for, or the first word at fault. Want of memory may come at any time.
#[tactic(auto, using(crate::proofs::SortLemmas::have_an_order))]
pub fn read_words(alloc: Global, words: &Vec<Text>) -> Result<Options, WordsFault>
    ensures options { IfOk result (λ options. words_of words.now.items ≡ Ok (plain_options options)) }
    ensures fault { IfErr result (λ e. (e ≡ fault.OutOfMemory) ⊎ (words_of words.now.items ≡ Err e)) }
    ensures order { HaveAnOrder words.now.items }
{
    let mut settings = Settings::new(alloc)?;
    let mut rest = words.as_slice();
    'words: while let Some((word, behind)) = rest.split_first() {
        rest = read_use(alloc, &mut settings, words.len(), word.as_str(), behind)?;
    }
    settings.options(alloc, words.len())
}

/// Reads a word, which stands before the last ones of so many, and what belongs to it. Answers the words behind that.
fn read_use<'a>(
    alloc: Global,
    settings: &mut Settings,
    total: usize,
    word: &str,
    behind: &'a [Text],
) -> Result<&'a [Text], WordsFault>
    requires { length behind.now < total }
    ensures less { IfOk result (λ rest. length rest.now ≤ length behind.now) }
    ensures rest { IfOk result (λ rest. rest_of (plain_settings settings.old) total (word.now ∷ behind.now) ≡
        rest_of (plain_settings settings.new) total rest.now) }
    ensures fault { IfErr result (λ e. (e ≡ fault.OutOfMemory) ⊎
        (rest_of (plain_settings settings.old) total (word.now ∷ behind.now) ≡ Err e)) }
{
    let place = total - behind.len() - 1;
    match form_of(word) {
        Form::Turns(flag) => settings.turn(flag),
        Form::Gives(option, value) => settings.give(alloc, place, option, value)?,
        Form::Asks(option) => {
            let Some((value, behind)) = behind.split_first() else {
                return Err(bad(place, OptionFault::NeedsValue));
            };
            settings.give(alloc, place, option, value.as_str())?;
            return Ok(behind);
        }
        Form::Closes if !behind.is_empty() => return Err(bad(place + 1, OptionFault::Extra)),
        Form::Closes => {}
        Form::Faulty(fault) => return Err(bad(place, fault)),
    }
    Ok(behind)
}
