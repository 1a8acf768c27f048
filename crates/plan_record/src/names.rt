//! The names beside a component, in room that is made once.
ghost use Rattle.std.specs.Prelude.{◌≡◌, ◌+◌, ◌≤◌, ◌++◌, length, IfOk};
ghost use Rattle.std.specs.String.{string_bytes, string_capacity};
ghost use Rattle.plan_record.specs.Names.{record_of, spare_of, joined_of, pieces_of, stem_of, promise_of};

use itoa::Buffer;
use std::alloc::{AllocError, Global};
use text_base::OutOfMemory;

/// The most bytes behind the component's name: `.part-Frag`, `.@` and two numbers of 64 bits.
const NAME_ROOM: usize = 52;

/// Room for each name beside this component.
pub fn name_room(alloc: Global, component: &str) -> Result<String, OutOfMemory>
    ensures { IfOk result (λ name. length component.now + 52 ≤ string_capacity name) }
{
    let room = component.len().checked_add(NAME_ROOM).ok_or(AllocError)?;
    Ok(String::with_capacity(alloc, room)?)
}

/// Writes the name of the record: what the component's pieces are.
pub fn write_record(name: &mut String, component: &str)
    requires { length component.now + 52 ≤ string_capacity name.old }
    ensures bytes { string_bytes name.new ≡ record_of component.now }
    ensures room { length component.now + 52 ≤ string_capacity name.new }
{
    name.clear();
    name.push_str(component).unwrap();
    name.push_str(".ytdl").unwrap();
}

/// Writes the spare name, under which a record is written before it has its own.
pub fn write_spare(name: &mut String, component: &str)
    requires { length component.now + 52 ≤ string_capacity name.old }
    ensures bytes { string_bytes name.new ≡ spare_of component.now }
    ensures room { length component.now + 52 ≤ string_capacity name.new }
{
    name.clear();
    name.push_str(component).unwrap();
    name.push_str(".ytdl.new").unwrap();
}

/// Writes the name of the joined part, in which several pieces are joined.
pub fn write_joined(name: &mut String, component: &str)
    requires { length component.now + 52 ≤ string_capacity name.old }
    ensures bytes { string_bytes name.new ≡ joined_of component.now }
    ensures room { length component.now + 52 ≤ string_capacity name.new }
{
    name.clear();
    name.push_str(component).unwrap();
    name.push_str(".part").unwrap();
}

/// Writes what the names of all the pieces begin with.
pub fn write_pieces(name: &mut String, component: &str)
    requires { length component.now + 52 ≤ string_capacity name.old }
    ensures bytes { string_bytes name.new ≡ pieces_of component.now }
    ensures room { length component.now + 52 ≤ string_capacity name.new }
{
    name.clear();
    name.push_str(component).unwrap();
    name.push_str(".part-Frag").unwrap();
}

/// Writes a piece's stem, the name that it has once it is complete. Pieces are counted from 0.
pub fn write_stem(name: &mut String, component: &str, piece: u64)
    requires { length component.now + 52 ≤ string_capacity name.old }
    ensures bytes { string_bytes name.new ≡ stem_of component.now piece }
    ensures room { length component.now + 52 ≤ string_capacity name.new }
{
    let mut digits = Buffer::new();
    name.clear();
    name.push_str(component).unwrap();
    name.push_str(".part-Frag").unwrap();
    name.push_str(digits.format(piece)).unwrap();
}

/// Writes the name that promises the first `len` bytes of a piece.
pub fn write_promise(name: &mut String, component: &str, piece: u64, len: u64)
    requires { length component.now + 52 ≤ string_capacity name.old }
    ensures bytes { string_bytes name.new ≡ promise_of component.now piece len }
    ensures room { length component.now + 52 ≤ string_capacity name.new }
{
    let mut piece_digits = Buffer::new();
    let mut len_digits = Buffer::new();
    name.clear();
    name.push_str(component).unwrap();
    name.push_str(".part-Frag").unwrap();
    name.push_str(piece_digits.format(piece)).unwrap();
    name.push_str(".@").unwrap();
    name.push_str(len_digits.format(len)).unwrap();
}
