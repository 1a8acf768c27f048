//! Parts of a folder in memory as they go out and come back.
ghost use Rattle.std.specs.Prelude.{◌≡◌, ◌≢◌, ◌-◌, ◌^◌, ◌≤◌, min, [], All, map, length, Some, nat_lt, sum_by, vec_capacity};
ghost use Rattle.std.specs.List.{list_any};
ghost use Rattle.folder_base.specs.Content.{content_tale};
ghost use Rattle.folder_base.specs.Memory.{asked, world_of, line_world, line_numbers, numbers_of};
ghost use Rattle.folder_base.specs.declared.side.Side.TheVariants.{Rest};
ghost use Rattle.folder_base.specs.Story.{stories};
ghost use Rattle.folder_base.specs.Tale.{gathered_tale};

use crate::content::Content;
use crate::line::Line;
use crate::memory::FolderMem;
use std::alloc::Global;

/// Whether some part counts a fault.
pub(crate) fn have_faults(parts: &Vec<FolderMem>) -> bool
    ensures { result ≡ list_any (λ part. nat_lt 0 part.faults) parts.now.items }
{
    parts.iter().any(|part| part.faults > 0)
}

/// Whether some part counts a refusal for want of memory.
pub(crate) fn have_refusals(parts: &Vec<FolderMem>) -> bool
    ensures { result ≡ list_any (λ part. nat_lt 0 part.refusals) parts.now.items }
{
    parts.iter().any(|part| part.refusals > 0)
}

/// How many calls these parts were asked.
pub(crate) fn calls_of(parts: &Vec<FolderMem>) -> u64
    ensures { result ≡ min (sum_by asked parts.now.items) (2 ^ 64 - 1) }
{
    let mut calls: u64 = 0;
    for part in parts {
        calls = calls.saturating_add(part.calls.saturating_sub(part.first));
    }
    calls
}

/// Makes a folder of each line, in a list that has room for them.
pub(crate) fn make_parts(alloc: Global, first: u64, lines: Vec<Line>, parts: &mut Vec<FolderMem>)
    requires room { length lines.items ≤ vec_capacity parts.old }
    requires empty { parts.old.items ≡ [] }
    requires sides { All (λ line. line.side ≢ Rest) lines.items }
    ensures worlds { map world_of parts.new.items ≡ map line_world lines.items }
    ensures numbers { map numbers_of parts.new.items ≡ map (line_numbers first) lines.items }
{
    for line in lines {
        let _ = parts.push(FolderMem {
            alloc,
            first,
            calls: first,
            faults: 0,
            refusals: 0,
            content: Content::of(alloc, line),
        });
    }
}

/// Puts what the parts have left into their places.
pub(crate) fn take_parts(content: &mut Content, parts: Vec<FolderMem>)
    requires { map (λ part. (content_tale part.content).part) parts.items ≡ map (λ part. Some part)
        (content_tale content.old).out }
    ensures tale { content_tale content.new ≡ gathered_tale (stories (map world_of parts.items))
        (content_tale content.old) }
    ensures plan { content.new.line.log.value.plan ≡ content.old.line.log.value.plan }
{
    for part in parts {
        content.take_back(part.content);
    }
}
