//! Laws of the records of components.
ghost use Rattle.std.specs.Prelude.{◌≡◌, true};
ghost use Rattle.plan_record.specs.Plan.{are_lines};
ghost use Rattle.job_pieces.specs.Kept.{AreKept};
ghost use Rattle.job_pieces.specs.Record.{http_urls, lines_of, record_text};
ghost use Rattle.job_pieces.specs.Views.{plain_component};

use crate::component::Component;

/// Law: one text, one list of URLs. Two components whose records have one text have the same URLs that lead over HTTP, in the same order.
pub fn one_plan(_one: &Component, _other: &Component)
    ensures { AreKept (plain_component _one.now) → AreKept (plain_component _other.now)
        → record_text (plain_component _one.now) ≡ record_text (plain_component _other.now)
        → http_urls (plain_component _one.now) ≡ http_urls (plain_component _other.now) }
{}

/// Law: a record can be written of a component whose URLs are kept as jobs keep them. None of its lines has an end of a line inside.
pub fn urls_make_lines(_component: &Component)
    ensures { AreKept (plain_component _component.now) → are_lines (lines_of (plain_component _component.now)) ≡ true }
{}
