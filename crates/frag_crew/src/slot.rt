//! A lane with the end of its piece: what the workers claim.
ghost use Rattle.std.specs.Prelude.{◌≡◌, ◌≤◌, [], map, vec_len, vec_capacity};
ghost use Rattle.keep_store.specs.Seen.{lane_seen};
ghost use Rattle.frag_crew.specs.Slots.{slot_before, end_before};

use folder_base::Folder;
use keep_store::Lane;
use piece_turn::PieceEnd;

/// A lane and how its piece ended.
#[derive(Drop)]
pub(crate) struct Slot<F: Folder> {
    pub(crate) lane: Lane<F>,
    pub(crate) end: PieceEnd,
}

/// How a piece stands that no worker has begun.
fn end_before(complete: bool) -> PieceEnd
    ensures { result ≡ end_before complete }
{
    if complete {
        PieceEnd::Done { tries: 0 }
    } else {
        PieceEnd::NotBegun
    }
}

/// Puts each lane into a slot of its own, in order.
pub(crate) fn fill_slots<F: Folder>(lanes: &mut Vec<Lane<F>>, slots: &mut Vec<Slot<F>>)
    requires none { slots.old.items ≡ [] }
    requires room { vec_len lanes.old ≤ vec_capacity slots.old }
    ensures slots { slots.new.items ≡ map slot_before lanes.old.items }
    ensures lanes { lanes.new.items ≡ [] }
    ensures room { vec_capacity lanes.new ≡ vec_capacity lanes.old }
{
    lanes.reverse();
    while let Some(lane) = lanes.pop() {
        let end = end_before(lane.complete());
        slots.push_reserved(Slot { lane, end });
    }
}

/// Takes each slot apart, in order.
pub(crate) fn empty_slots<F: Folder>(
    slots: Vec<Slot<F>>,
    lanes: &mut Vec<Lane<F>>,
    ends: &mut Vec<PieceEnd>,
)
    requires no_lane { lanes.old.items ≡ [] }
    requires no_end { ends.old.items ≡ [] }
    requires room { vec_len slots ≤ vec_capacity lanes.old }
    requires end_room { vec_len slots ≤ vec_capacity ends.old }
    ensures lanes { lanes.new.items ≡ map (λ slot. slot.lane) slots.items }
    ensures ends { ends.new.items ≡ map (λ slot. slot.end) slots.items }
{
    let mut slots = slots;
    while let Some(slot) = slots.pop() {
        let Slot { lane, end } = slot;
        lanes.push_reserved(lane);
        ends.push_reserved(end);
    }
    slots.destroy_empty();
    lanes.reverse();
    ends.reverse();
}
