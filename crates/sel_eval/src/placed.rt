ghost use Rattle.std.specs.Prelude.{◌≡◌, ◌<◌, IfOk, Some, length, slice_get};
ghost use Rattle.std.specs.List.{range_with_len};
ghost use Rattle.std.specs.List.Sorted.{IsPermutation};
ghost use Rattle.info_item.specs.Fields.{ext_of};
ghost use Rattle.sel_eval.specs.Placed.{has_video, has_audio, has_stream, at_places};

use info_item::Format;
use std::alloc::Global;
use std::marker::Model;
use text_base::OutOfMemory;

/// A format with its place among the item's formats.
#[derive(Drop)]
pub(crate) struct Placed<'a> {
    place: usize,
    format: &'a Format<'a>,
}

impl<'a> Model for Placed<'a> {
    ghost use Rattle.sel_eval.specs.Placed.{Placed as Plain, coded_placed};

    ghost Value = { Plain };

    ghost coded = { coded_placed };

    ghost view = { λ p. record { place = p.place; format = p.format.now } };
}

impl<'a> Placed<'a> {
    /// The same format once more.
    pub(crate) fn again(&self) -> Placed<'a>
        ensures { result ≡ self.now }
    {
        Placed {
            place: self.place,
            format: self.format,
        }
    }

    pub(crate) fn place(&self) -> usize
        ensures { result ≡ self.now.place }
    {
        self.place
    }

    pub(crate) fn format(&self) -> &'a Format<'a>
        ensures { result.now ≡ self.now.format }
    {
        self.format
    }

    pub(crate) fn has_video(&self) -> bool
        ensures { result ≡ has_video self.now }
    {
        self.format.has_video()
    }

    pub(crate) fn has_audio(&self) -> bool
        ensures { result ≡ has_audio self.now }
    {
        self.format.has_audio()
    }

    pub(crate) fn has_stream(&self) -> bool
        ensures { result ≡ has_stream self.now }
    {
        self.format.has_video() || self.format.has_audio()
    }
}

fn format_at<'a>(formats: &'a [Format<'a>], place: usize) -> &'a Format<'a>
    requires { place < length formats.now }
    ensures { slice_get formats.entry.now place ≡ Some result.now }
{
    &formats[place]
}

/// The formats at these places, in the order of the places.
pub(crate) fn at_places<'a>(
    alloc: Global,
    formats: &'a [Format<'a>],
    places: &[usize],
) -> Result<Vec<Placed<'a>>, OutOfMemory>
    requires { IsPermutation (range_with_len 0 (length formats.now)) places.now }
    ensures { IfOk result (λ v. v.items ≡ at_places formats.entry.now places.now) }
{
    let mut all = Vec::with_capacity(alloc, places.len())?;
    for place in places {
        let format = format_at(formats, *place);
        all.push(Placed {
            place: *place,
            format,
        })?;
    }
    Ok(all)
}
