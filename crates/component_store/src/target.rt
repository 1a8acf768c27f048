//! A component that is being made.
ghost use Rattle.std.specs.Prelude.{◌≡◌, ◌+◌, ◌≤◌, length, string_bytes};
ghost use Rattle.plan_record.specs.Names.{record_of, spare_of, joined_of, pieces_of};

use plan_record::{name_room, write_joined, write_pieces, write_record, write_spare};
use std::alloc::Global;
use text_base::OutOfMemory;

/// A component: its name, the number of its pieces, and whether it is what the user asked for, or one
/// part of it. With the names beside it, made once.
#[derive(Drop)]
pub struct Target {
    pub(crate) name: String,
    pub(crate) record_name: String,
    pub(crate) spare: String,
    pub(crate) joined: String,
    pub(crate) pieces: String,
    pub(crate) count: usize,
    pub(crate) is_final: bool,
    pub ghost record_is: { string_bytes record_name ≡ record_of (string_bytes name) },
    pub ghost spare_is: { string_bytes spare ≡ spare_of (string_bytes name) },
    pub ghost joined_is: { string_bytes joined ≡ joined_of (string_bytes name) },
    pub ghost pieces_is: { string_bytes pieces ≡ pieces_of (string_bytes name) },
}

impl Target {
    ghost use Rattle.std.specs.Prelude.{IfOk};
    ghost use Rattle.component_store.specs.Target.{component_of};

    /// A component of this name in `pieces` pieces. One that is `final_too` is removed by no call.
    pub fn new(
        alloc: Global,
        name: &str,
        pieces: usize,
        final_too: bool,
    ) -> Result<Target, OutOfMemory>
        ensures named { IfOk result (λ target. component_of target ≡ name.now) }
        ensures count { IfOk result (λ target. target.count ≡ pieces) }
        ensures is_final { IfOk result (λ target. target.is_final ≡ final_too) }
    {
        let mut record_name = name_room(alloc, name)?;
        let mut spare = name_room(alloc, name)?;
        let mut joined = name_room(alloc, name)?;
        let mut prefix = name_room(alloc, name)?;
        write_record(&mut record_name, name);
        write_spare(&mut spare, name);
        write_joined(&mut joined, name);
        write_pieces(&mut prefix, name);
        Ok(Target {
            name: String::from_str(alloc, name)?,
            record_name,
            spare,
            joined,
            pieces: prefix,
            count: pieces,
            is_final: final_too,
        })
    }
}
