ghost use Rattle.std.specs.Prelude.{◌≡◌, length, slice_get, None, IfOk, OnOk, OnErr, [], ◌∷◌, ◌++◌};
ghost use Rattle.std.specs.Option.{ForSome, option_map};
ghost use Rattle.std.specs.List.{position, IsDistinct};
ghost use Rattle.std.specs.Str.{bytes_eq};
ghost use Rattle.std.specs.String.{string_bytes};
ghost use Rattle.info_tree.specs.Keys.{TellsPlaces};

use std::alloc::Global;
use std::collections::BTreeMap;
use std::marker::Model;
use text_base::{OutOfMemory, Text};

/// As many keys as are looked up one after another.
const FEW: usize = 32;

/// Texts of which no two are equal, in the order in which they came, as the keys of a map.
#[derive(Drop)]
pub struct Keys {
    texts: Vec<Text>,
    /// The place of each, where there are more than a few.
    places: Option<Box<BTreeMap<String, usize>>>,
}

impl Model for Keys {
    ghost use Rattle.std.specs.Prelude.{ℕ, List};
    ghost use Rattle.std.specs.Option.{ForSome};
    ghost use Rattle.std.specs.List.{IsDistinct};
    ghost use Rattle.std.specs.Str.{bytes_eq};
    ghost use Rattle.info_tree.specs.Keys.{TellsPlaces};

    ghost Value = { List (List ℕ) };

    ghost view = { λ a. a.texts.items };

    ghost invariant = { λ a. IsDistinct bytes_eq a.texts.items
        × ForSome a.places (λ b. TellsPlaces b.value a.texts.items) };
}

impl Keys {
    pub fn new(alloc: Global) -> Keys
        ensures { result ≡ [] }
    {
        Keys {
            texts: Vec::new(alloc),
            places: None,
        }
    }

    /// How many there are, no two of which are equal.
    pub fn len(&self) -> usize
        ensures len { result ≡ length self.now }
        ensures distinct { IsDistinct bytes_eq self.now }
    {
        self.texts.len()
    }

    pub fn get(&self, place: usize) -> Option<&str>
        ensures { option_map (λ k. k.now) result ≡ slice_get self.now place }
    {
        let text = self.texts.get(place)?;
        Some(text.as_str())
    }

    /// The place of a text. No two are equal.
    pub fn place_of(&self, text: &str) -> Option<usize>
        ensures place { result ≡ position (bytes_eq text.now) self.now }
        ensures distinct { IsDistinct bytes_eq self.now }
    {
        match &self.places {
            Some(places) => places.get(text).copied(),
            None => place_among(&self.texts, text),
        }
    }

    /// Puts a text last that is not there.
    pub fn push(&mut self, text: String) -> Result<(), OutOfMemory>
        requires { position (bytes_eq (string_bytes text)) self.old ≡ None }
        ensures ok { OnOk result (self.new ≡ self.old ++ string_bytes text ∷ []) }
        ensures err { OnErr result (self.new ≡ self.old) }
    {
        self.put_last(Text::from(text))
    }

    /// The same with a text of our own.
    pub(crate) fn put_last(&mut self, text: Text) -> Result<(), OutOfMemory>
        requires { position (bytes_eq text) self.old ≡ None }
        ensures ok { OnOk result (self.new ≡ self.old ++ text ∷ []) }
        ensures err { OnErr result (self.new ≡ self.old) }
    {
        let places = places_behind(self.places.take(), &self.texts, text.as_str())?;
        self.texts.push(text)?;
        self.places = places;
        Ok(())
    }
}

fn place_among(texts: &Vec<Text>, text: &str) -> Option<usize>
    ensures { result ≡ position (bytes_eq text.now) texts.now.items }
{
    texts.iter().position(|key| text == key.as_str())
}

/// The places once a text that is not there stands last, where there are more than a few.
fn places_behind(
    places: Option<Box<BTreeMap<String, usize>>>,
    texts: &Vec<Text>,
    text: &str,
) -> Result<Option<Box<BTreeMap<String, usize>>>, OutOfMemory>
    requires places { ForSome places (λ b. TellsPlaces b.value texts.now.items) }
    requires distinct { IsDistinct bytes_eq texts.now.items }
    requires fresh { position (bytes_eq text.now) texts.now.items ≡ None }
    ensures { IfOk result (λ o. ForSome o (λ b. TellsPlaces b.value (texts.now.items ++ text.now ∷ []))) }
{
    let alloc = *texts.allocator();
    let mut places = match places {
        Some(places) => places,
        None if texts.len() < FEW => return Ok(None),
        None => Box::new(alloc, places_of(texts)?)?,
    };
    places.insert(String::from_str(alloc, text)?, texts.len())?;
    Ok(Some(places))
}

/// The place of each text.
fn places_of(texts: &Vec<Text>) -> Result<BTreeMap<String, usize>, OutOfMemory>
    requires { IsDistinct bytes_eq texts.now.items }
    ensures { IfOk result (λ m. TellsPlaces m texts.now.items) }
{
    let alloc = *texts.allocator();
    let mut places = BTreeMap::new(alloc);
    for (place, text) in texts.iter().enumerate() {
        places.insert(String::from_str(alloc, text.as_str())?, place)?;
    }
    Ok(places)
}
