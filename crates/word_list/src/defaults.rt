//! What stands where words say nothing.

ghost use Rattle.std.specs.Prelude.{◌≡◌, IfOk, IsOk};
ghost use Rattle.sel_lang.specs.View.{plain};
ghost use Rattle.tpl_lang.specs.Reading.{template_of};
ghost use Rattle.word_list.specs.Defaults as spec;

use sel_lang::{Media, Pick, Sel};
use std::alloc::Global;
use text_base::OutOfMemory;
use tpl_lang::{Template, TplFault, read_template};

/// The selector without `-f`: audio alone where nothing else is kept of a file, else video with audio, or one format with both.
pub fn default_sel(
    alloc: Global,
    audio_alone: bool,
    audio_streams: bool,
) -> Result<Sel, OutOfMemory>
    ensures { IfOk result (λ s. plain s ≡ spec.default_sel audio_alone audio_streams) }
{
    let first = if audio_alone {
        best(Media::Audio, false)
    } else {
        let video = best(Media::Video, !audio_streams);
        Sel::Merge(vec![in alloc; video, best(Media::Audio, false)]?)
    };
    Ok(Sel::First(vec![in alloc; first, best(Media::Any, false)]?))
}

/// The best of the candidates of a special name.
fn best(media: Media, star: bool) -> Sel
    ensures { plain result ≡ spec.best media star }
{
    Sel::Name(Pick::Ranked {
        worst: false,
        media,
        star,
        n: 1,
    })
}

/// The template of names without `-o`.
pub fn default_template(alloc: Global, restricted: bool) -> Result<Template, OutOfMemory>
    ensures { IfOk result (λ t. t ≡ spec.default_template restricted) }
{
    if restricted {
        known_template(alloc, "%(title)s-[%(id)s].%(ext)s")
    } else {
        known_template(alloc, "%(title)s [%(id)s].%(ext)s")
    }
}

/// The template that a text is known to be.
fn known_template(alloc: Global, text: &str) -> Result<Template, OutOfMemory>
    requires { IsOk (template_of text.now) }
    ensures { IfOk result (λ t. t ≡ spec.parts_of (template_of text.now)) }
{
    match read_template(alloc, text) {
        Ok(template) => Ok(template),
        Err(TplFault::OutOfMemory) => Err(OutOfMemory),
        Err(_) => unreachable!(),
    }
}
