//! What the parts of one file share.
ghost use Rattle.std.specs.Prelude.{◌≡◌, List, map, find, slice_get, IfOk, OnOk, OnErr};
ghost use Rattle.std.specs.Option.{option_map};
ghost use Rattle.text_base.specs.Number.{number_of};
ghost use Rattle.info_tree.specs.Tree.{null, number, list, trees_of};
ghost use Rattle.info_tree.specs.Plain.{plain};
ghost use Rattle.info_tree.specs.Pairs.{put, HaveDistinctKeys};
ghost use Rattle.info_item.specs.Fields.{has_video_of, has_audio_of};
ghost use Rattle.info_item.specs.View as spec;

use crate::format::Format;
use crate::sums::{Measure, sum_of};
use info_tree::{Tree, TreeList, TreeMap};
use std::alloc::Global;
use text_base::{Num, NumField, OutOfMemory, Text, TextField};

/// Whether several parts share a key.
pub(crate) fn is_shared(key: &str) -> bool
    ensures { result ≡ spec.is_shared key.now }
{
    matches!(
        key,
        "format_id"
            | "format"
            | "protocol"
            | "width"
            | "height"
            | "resolution"
            | "fps"
            | "dynamic_range"
            | "vcodec"
            | "vbr"
            | "stretched_ratio"
            | "aspect_ratio"
            | "acodec"
            | "abr"
            | "asr"
            | "audio_channels"
            | "tbr"
            | "filesize_approx"
            | "filesize"
            | "url"
            | "fragments"
            | "fragment_base_url"
            | "http_headers"
            | "requested_formats"
    )
}

/// The format at a place.
fn format_at<'a, 'b>(formats: &'a Vec<Format<'b>>, place: usize) -> Option<&'a Format<'b>>
    ensures { option_map (λ f. f.now) result ≡ slice_get formats.now.items place }
{
    formats.get(place)
}

/// The formats at these places.
pub(crate) fn parts_of<'a, 'b>(
    alloc: Global,
    formats: &'a Vec<Format<'b>>,
    places: &Vec<usize>,
) -> Result<Vec<&'a Format<'b>>, OutOfMemory>
    ensures { IfOk result (λ parts.
        map (λ f. f.now) parts.items ≡ spec.parts_of formats.now.items places.now.items) }
{
    let mut parts = Vec::with_capacity(alloc, places.len())?;
    for place in places {
        let Some(part) = format_at(formats, *place) else {
            continue;
        };
        parts.push(part)?;
    }
    Ok(parts)
}

/// Puts a tree under a key.
pub(crate) fn put(
    alloc: Global,
    pairs: &mut TreeMap,
    key: &str,
    tree: Tree,
) -> Result<(), OutOfMemory>
    ensures ok { OnOk result (pairs.new ≡ put pairs.old key.now (plain tree)) }
    ensures distinct { OnOk result (HaveDistinctKeys pairs.old) }
    ensures err { OnErr result (pairs.new ≡ pairs.old) }
{
    pairs.put(Text::new(alloc, key)?, tree)
}

/// Puts a number under a key, where it is known.
fn put_num(
    alloc: Global,
    pairs: &mut TreeMap,
    key: &str,
    num: Option<Num>,
) -> Result<(), OutOfMemory>
    ensures { OnOk result (pairs.new
        ≡ spec.put_known pairs.old key.now (option_map number (option_map number_of num))) }
{
    match num {
        Some(num) => put(alloc, pairs, key, Tree::Num(num)),
        None => Ok(()),
    }
}

/// Puts a number of a format under its key, where it is known.
fn put_number(
    alloc: Global,
    pairs: &mut TreeMap,
    format: &Format<'_>,
    field: NumField,
) -> Result<(), OutOfMemory>
    ensures { OnOk result (pairs.new ≡ spec.put_number format.now field pairs.old) }
{
    put_num(alloc, pairs, field.key(), format.number(field))
}

/// Puts a text of a format under its key, where it is known.
fn put_text(
    alloc: Global,
    pairs: &mut TreeMap,
    format: &Format<'_>,
    field: TextField,
) -> Result<(), OutOfMemory>
    ensures { OnOk result (pairs.new ≡ spec.put_text format.now field pairs.old) }
{
    match format.text(field) {
        Some(text) => put(
            alloc,
            pairs,
            field.key(),
            Tree::Text(Text::new(alloc, text)?),
        ),
        None => Ok(()),
    }
}

/// The texts of a field, joined by a plus, where all parts have one.
fn joined_texts(
    alloc: Global,
    parts: &Vec<&Format<'_>>,
    field: TextField,
) -> Result<Option<Text>, OutOfMemory>
    ensures { IfOk result (λ text.
        text ≡ spec.joined_texts field (map (λ f. f.now) parts.now.items)) }
{
    let Some((first, rest)) = parts.split_first() else {
        return Ok(None);
    };
    let Some(text) = first.text(field) else {
        return Ok(None);
    };
    let mut joined = String::from_str(alloc, text)?;
    for part in rest {
        let Some(text) = part.text(field) else {
            return Ok(None);
        };
        joined.push('+')?;
        joined.push_str(text)?;
    }
    Ok(Some(Text::from(joined)))
}

/// Puts the texts of a field, joined, under its key, where all parts have one.
fn put_joined(
    alloc: Global,
    pairs: &mut TreeMap,
    parts: &Vec<&Format<'_>>,
    field: TextField,
) -> Result<(), OutOfMemory>
    ensures { OnOk result (pairs.new
        ≡ spec.put_joined (map (λ f. f.now) parts.now.items) field pairs.old) }
{
    match joined_texts(alloc, parts, field)? {
        Some(text) => put(alloc, pairs, field.key(), Tree::Text(text)),
        None => Ok(()),
    }
}

/// The first part with video.
fn first_with_video<'a, 'b>(parts: &Vec<&'a Format<'b>>) -> Option<&'a Format<'b>>
    ensures { option_map (λ f. f.now) result
        ≡ find (λ f. has_video_of f.tree) (map (λ f. f.now) parts.now.items) }
{
    for part in parts {
        if part.has_video() {
            return Some(*part);
        }
    }
    None
}

/// The first part with audio.
fn first_with_audio<'a, 'b>(parts: &Vec<&'a Format<'b>>) -> Option<&'a Format<'b>>
    ensures { option_map (λ f. f.now) result
        ≡ find (λ f. has_audio_of f.tree) (map (λ f. f.now) parts.now.items) }
{
    for part in parts {
        if part.has_audio() {
            return Some(*part);
        }
    }
    None
}

/// Puts the keys of a part with video.
fn put_video(
    alloc: Global,
    pairs: &mut TreeMap,
    part: Option<&Format<'_>>,
) -> Result<(), OutOfMemory>
    ensures { OnOk result (pairs.new ≡ spec.put_video (option_map (λ f. f.now) part.entry) pairs.old) }
{
    let Some(part) = part else {
        return Ok(());
    };
    put_number(alloc, pairs, part, NumField::Width)?;
    put_number(alloc, pairs, part, NumField::Height)?;
    put_text(alloc, pairs, part, TextField::Resolution)?;
    put_number(alloc, pairs, part, NumField::Fps)?;
    put_text(alloc, pairs, part, TextField::DynamicRange)?;
    put_text(alloc, pairs, part, TextField::Vcodec)?;
    put_number(alloc, pairs, part, NumField::Vbr)?;
    put_number(alloc, pairs, part, NumField::StretchedRatio)?;
    put_number(alloc, pairs, part, NumField::AspectRatio)
}

/// Puts the keys of a part with audio.
fn put_audio(
    alloc: Global,
    pairs: &mut TreeMap,
    part: Option<&Format<'_>>,
) -> Result<(), OutOfMemory>
    ensures { OnOk result (pairs.new ≡ spec.put_audio (option_map (λ f. f.now) part.entry) pairs.old) }
{
    let Some(part) = part else {
        return Ok(());
    };
    put_text(alloc, pairs, part, TextField::Acodec)?;
    put_number(alloc, pairs, part, NumField::Abr)?;
    put_number(alloc, pairs, part, NumField::Asr)?;
    put_number(alloc, pairs, part, NumField::AudioChannels)
}

/// The key of the list of the parts' maps.
pub(crate) const PARTS_KEY: &str = "requested_formats";

/// The maps of parts.
fn maps_of<'a>(alloc: Global, parts: &Vec<&'a Format<'_>>) -> Result<Vec<&'a Tree>, OutOfMemory>
    ensures { IfOk result (λ maps. map (λ t. plain t.now) maps.items
        ≡ map (λ f. f.tree) (map (λ f. f.now) parts.now.items)) }
{
    let mut maps = Vec::with_capacity(alloc, parts.len())?;
    for part in parts {
        maps.push(part.tree())?;
    }
    Ok(maps)
}

/// What several parts share but the list of their maps.
fn summed(alloc: Global, parts: &Vec<&Format<'_>>) -> Result<TreeMap, OutOfMemory>
    ensures { IfOk result (λ pairs. pairs ≡ spec.summed (map (λ f. f.now) parts.now.items)) }
{
    let mut pairs = TreeMap::new(alloc);
    put_joined(alloc, &mut pairs, parts, TextField::FormatId)?;
    put_joined(alloc, &mut pairs, parts, TextField::Format)?;
    put_joined(alloc, &mut pairs, parts, TextField::Protocol)?;
    put_video(alloc, &mut pairs, first_with_video(parts))?;
    put_audio(alloc, &mut pairs, first_with_audio(parts))?;
    put_num(alloc, &mut pairs, "tbr", sum_of(parts, Measure::Rate))?;
    put_num(
        alloc,
        &mut pairs,
        "filesize_approx",
        sum_of(parts, Measure::Size),
    )?;
    Ok(pairs)
}

/// The same, with a null in the place of that list.
fn placed(alloc: Global, parts: &Vec<&Format<'_>>) -> Result<TreeMap, OutOfMemory>
    ensures { IfOk result (λ pairs. pairs
        ≡ put (spec.summed (map (λ f. f.now) parts.now.items)) spec.parts_key null) }
{
    let mut pairs = summed(alloc, parts)?;
    put(alloc, &mut pairs, PARTS_KEY, Tree::Null)?;
    Ok(pairs)
}

/// Whether there are several parts.
pub(crate) fn are_several(parts: &Vec<&Format<'_>>) -> bool
    ensures { result ≡ spec.are_several (map (λ f. f.now) parts.now.items) }
{
    match parts.as_slice() {
        [] | [_] => false,
        _ => true,
    }
}

/// What the parts share: nothing, unless there are several. A null holds the place of the list of
/// their maps.
pub(crate) fn shared(alloc: Global, parts: &Vec<&Format<'_>>) -> Result<TreeMap, OutOfMemory>
    ensures { IfOk result (λ pairs. pairs ≡ spec.placed_of (map (λ f. f.now) parts.now.items)) }
{
    if are_several(parts) {
        placed(alloc, parts)
    } else {
        Ok(TreeMap::new(alloc))
    }
}

/// The maps of several parts.
pub(crate) fn shared_maps<'a>(
    alloc: Global,
    parts: &Vec<&'a Format<'_>>,
) -> Result<Option<Vec<&'a Tree>>, OutOfMemory>
    ensures { IfOk result (λ maps. option_map (λ v. map (λ t. plain t.now) v.items) maps
        ≡ spec.maps_of (map (λ f. f.now) parts.now.items)) }
{
    if are_several(parts) {
        Ok(Some(maps_of(alloc, parts)?))
    } else {
        Ok(None)
    }
}

/// The list of copies of maps.
pub(crate) fn list_of(alloc: Global, maps: &Vec<&Tree>) -> Result<Tree, OutOfMemory>
    ensures { IfOk result (λ t. plain t ≡ list (trees_of (map (λ t. plain t.now) maps.now.items))) }
{
    let mut copies = TreeList::with_capacity(alloc, maps.len())?;
    for map in maps {
        copies.push(map.copy(alloc)?)?;
    }
    Ok(Tree::List(copies))
}
