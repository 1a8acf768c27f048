//! The fields of a sort specification in their order.

ghost use Rattle.std.specs.Prelude.{◌≡◌, map, fold, IfOk};
ghost use Rattle.std.specs.List.{list_any};
ghost use Rattle.std.specs.Str.{bytes_eq};
ghost use Rattle.fmt_sort.specs.Keys.{name_of};
ghost use Rattle.fmt_sort.specs.Read.{latest_first};
ghost use Rattle.fmt_sort.specs.Reading as spec;
ghost use Rattle.fmt_sort.specs.Spec.{wanted_of, wanted_when};

use crate::given::GivenField;
use crate::limit::Limit;
use crate::sort_field::SortField;
use crate::sort_key::SortKey;
use std::alloc::Global;
use text_base::OutOfMemory;

/// The fields that stand first.
const FIRST: [SortKey; 2] = [SortKey::HasVideo, SortKey::Preference];

/// The fields that stand last.
const LAST: [SortKey; 17] = [
    SortKey::Language,
    SortKey::Quality,
    SortKey::Resolution,
    SortKey::Fps,
    SortKey::DynamicRange,
    SortKey::VideoCodec,
    SortKey::Channels,
    SortKey::AudioCodec,
    SortKey::Size,
    SortKey::Bitrate,
    SortKey::Asr,
    SortKey::Protocol,
    SortKey::VideoExt,
    SortKey::AudioExt,
    SortKey::HasAudio,
    SortKey::Source,
    SortKey::Id,
];

/// The points of `hdr12` in its row.
const HDR12_POINTS: u8 = 5;

/// Whether a field of this name stands among others.
fn is_there(fields: &[SortField], key: SortKey) -> bool
    ensures { result ≡ list_any (λ f. bytes_eq (name_of f.key) (name_of key)) fields.now }
{
    fields.iter().any(|field| field.key.name() == key.name())
}

/// Puts a field last where none of its name stands yet.
fn put(fields: &mut Vec<SortField>, field: SortField) -> Result<(), OutOfMemory>
    ensures { IfOk result (λ _. map wanted_of fields.new.items
        ≡ spec.put (map wanted_of fields.old.items) (wanted_of field)) }
{
    if !is_there(fields.as_slice(), field.key) {
        fields.push(field)?;
    }
    Ok(())
}

/// The field of a key as it stands among the first and the last.
fn standing(key: SortKey) -> SortField
    ensures { wanted_of result ≡ spec.standing key }
{
    let limit = match key {
        SortKey::DynamicRange => Some(Limit::Points(HDR12_POINTS)),
        _ => None,
    };
    SortField {
        key,
        is_reversed: false,
        is_nearest: false,
        limit,
    }
}

/// Puts the fields of keys, one after the other.
fn put_standing(fields: &mut Vec<SortField>, keys: &[SortKey]) -> Result<(), OutOfMemory>
    ensures { IfOk result (λ _. map wanted_of fields.new.items
        ≡ fold spec.put (map wanted_of fields.old.items) (map spec.standing keys.now)) }
{
    for key in keys {
        put(fields, standing(*key))?;
    }
    Ok(())
}

/// Puts given fields, the last first.
fn put_given(
    fields: &mut Vec<SortField>,
    mut given: Vec<GivenField>,
    free: bool,
) -> Result<(), OutOfMemory>
    ensures { IfOk result (λ _. map wanted_of fields.new.items
        ≡ fold spec.put (map wanted_of fields.old.items)
        (map (wanted_when free) (latest_first given.items))) }
{
    while let Some(field) = given.pop() {
        put(fields, field.settled(free))?;
    }
    Ok(())
}

/// The given fields, the last first, in their order among those that stand first and last.
pub(crate) fn in_order(
    alloc: Global,
    given: Vec<GivenField>,
    force: bool,
    free: bool,
) -> Result<Vec<SortField>, OutOfMemory>
    ensures { IfOk result (λ fields. map wanted_of fields.items
        ≡ spec.in_order force (map (wanted_when free) (latest_first given.items))) }
{
    let mut fields = Vec::new(alloc);
    if force {
        put_given(&mut fields, given, free)?;
        put_standing(&mut fields, &FIRST)?;
        put_standing(&mut fields, &LAST)?;
        return Ok(fields);
    }
    put_standing(&mut fields, &FIRST)?;
    put_given(&mut fields, given, free)?;
    put_standing(&mut fields, &LAST)?;
    Ok(fields)
}
