//! Which formats of an item can be fetched.
ghost use Rattle.std.specs.Prelude.{◌≡◌, option_map, slice_get};

use info_item::Format;
use job_pieces::can_be_fetched;
use std::alloc::Global;
use text_base::OutOfMemory;

/// Which formats of an item can be fetched. Each is asked once, when a choice takes it.
#[derive(Drop)]
pub(crate) struct Fetchable<'a> {
    formats: &'a [Format<'a>],
    /// What is known of each.
    answers: Vec<Option<bool>>,
}

/// The format at a place.
fn format_at<'a, 'b>(formats: &'a [Format<'b>], place: usize) -> Option<&'a Format<'b>>
    ensures { option_map (λ f. f.now) result ≡ slice_get formats.now place }
{
    formats.get(place)
}

impl<'a> Fetchable<'a> {
    ghost use Rattle.std.specs.Prelude.{◌≡◌, IfOk, IfSome, Some, slice_get, slice_set};
    ghost use Rattle.job_plan.specs.Draft.{part_without_pieces};
    ghost use Rattle.job_plan.specs.Fetchable.{Told};
    ghost use Rattle.job_pieces.specs.Pieces.{can_fetch};

    /// Nothing is known of these formats.
    pub(crate) fn new(
        alloc: Global,
        formats: &'a [Format<'a>],
    ) -> Result<Fetchable<'a>, OutOfMemory>
        ensures { IfOk result (λ f. Told formats.entry.now f) }
    {
        let mut answers = Vec::with_capacity(alloc, formats.len())?;
        for _format in formats {
            answers.push(None)?;
        }
        Ok(Fetchable { formats, answers })
    }

    /// What is known of the format at a place.
    fn known(&self, place: usize) -> Option<bool>
        ensures { IfSome result (λ can. slice_get self.now.answers.items place ≡ Some (Some can)) }
    {
        *self.answers.get(place)?
    }

    /// From now on the format at a place is known.
    fn learn(&mut self, place: usize, can: bool)
        ensures formats { self.new.formats.now ≡ self.old.formats.now }
        ensures answers { self.new.answers.items ≡ slice_set self.old.answers.items place (Some can) }
    {
        if let Some(answer) = self.answers.get_mut(place) {
            *answer = Some(can);
        }
    }

    /// Whether the format at a place can be fetched.
    fn is_fetchable(&mut self, alloc: Global, place: usize) -> Result<bool, OutOfMemory>
        ensures told { (formats : _) → Told formats self.old → Told formats self.new }
        ensures answer { (formats : _) → Told formats self.old → IfOk result (λ can. can ≡ can_fetch formats place) }
    {
        let Some(format) = format_at(self.formats, place) else {
            return Ok(true);
        };
        if let Some(can) = self.known(place) {
            return Ok(can);
        }
        let can = can_be_fetched(alloc, format.tree())?;
        self.learn(place, can);
        Ok(can)
    }

    /// Which of the formats at these places is the first that can't be fetched, counted from 0.
    pub(crate) fn first_without(
        &mut self,
        alloc: Global,
        places: &[usize],
    ) -> Result<Option<usize>, OutOfMemory>
        ensures told { (formats : _) → Told formats self.old → Told formats self.new }
        ensures first { (formats : _) → Told formats self.old
            → IfOk result (λ part. part ≡ part_without_pieces formats places.now) }
    {
        for (part, place) in places.iter().enumerate() {
            if !self.is_fetchable(alloc, *place)? {
                return Ok(Some(part));
            }
        }
        Ok(None)
    }
}
