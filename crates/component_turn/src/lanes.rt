//! Lanes over the parts of a folder, and back.
ghost use Rattle.std.specs.Prelude.{◌≡◌, ◌≤◌, ◌+◌, [], ◌++◌, IfNone, IfSome, map, length, vec_capacity};
ghost use Rattle.keep_store.specs.Seen.{lane_seen};
ghost use Rattle.component_turn.specs.Lanes.{AllFolders, AllTried, WasRefused};

use folder_base::{Folder, StoreFault};
use keep_store::Lane;
use std::alloc::Global;
use text_base::Text;

/// Opens a lane over each part, until one is refused; that part and those behind it are left.
pub(crate) fn open_all<F: Folder + Drop>(
    alloc: Global,
    parts: Vec<F>,
    stems: &Vec<Text>,
    lanes: &mut Vec<Lane<F>>,
    left: &mut Vec<F>,
) -> Option<StoreFault>
    requires many { length parts.items ≡ length stems.now.items }
    requires folders { AllFolders stems.now.items (map F.world parts.items) }
    requires no_lane { lanes.old.items ≡ [] }
    requires none_left { left.old.items ≡ [] }
    requires room { length parts.items ≤ vec_capacity lanes.old }
    requires left_room { length parts.items ≤ vec_capacity left.old }
    ensures tried { AllTried 0 stems.now.items (map F.world parts.items)
        (map lane_seen lanes.new.items) (map F.world left.new.items) }
    ensures why { IfSome result (λ fault. WasRefused fault stems.now.items (map F.world parts.items)
        (map (λ lane. (lane_seen lane).world) lanes.new.items ++ map F.world left.new.items)) }
    ensures room { vec_capacity left.new ≡ vec_capacity left.old }
    ensures all { IfNone result (left.new.items ≡ []) }
{
    let mut refusal = None;
    let mut at = 0;
    for part in parts {
        match refusal {
            None => match Lane::open(alloc, part, at, stems[at].as_str()) {
                Ok(lane) => lanes.push_reserved(lane),
                Err(refused) => {
                    refusal = Some(refused.fault);
                    left.push_reserved(refused.folder);
                }
            },
            Some(_) => left.push_reserved(part),
        }
        at += 1;
    }
    refusal
}

/// Puts the lanes' folders behind these, in their order.
pub(crate) fn close_all<F: Folder + Drop>(lanes: Vec<Lane<F>>, back: &mut Vec<F>)
    requires { length back.old.items + length lanes.items ≤ vec_capacity back.old }
    ensures folders { map F.world back.new.items
        ≡ map F.world back.old.items ++ map (λ lane. (lane_seen lane).world) lanes.items }
    ensures room { vec_capacity back.new ≡ vec_capacity back.old }
{
    for lane in lanes {
        back.push_reserved(lane.into_folder());
    }
}

/// Puts these parts behind.
pub(crate) fn put_all<F: Folder + Drop>(more: Vec<F>, back: &mut Vec<F>)
    requires { length back.old.items + length more.items ≤ vec_capacity back.old }
    ensures { back.new.items ≡ back.old.items ++ more.items }
{
    for part in more {
        back.push_reserved(part);
    }
}
