ghost use Rattle.std.specs.Prelude.{OnOk, IfSome};
ghost use Rattle.std.specs.Io.KnownBytes.{Appends};

use std::fs::{self, Files};
use std::io::{self, Read, Write};

/// The files that are joined, in order, and the one that they are written to.
#[derive(Drop)]
pub struct Joining<'a> {
    pub inputs: Vec<&'a str>,
    pub output: &'a str,
}

/// Writes the inputs to the output, which is made anew once all inputs are open.
pub fn join_files<R: Files + AllocGlobal>(rt: &R, joining: &Joining<'_>) -> io::Result<()> {
    let mut inputs = Vec::new(rt.alloc());
    for name in &joining.inputs {
        inputs.push(fs::open(rt, *name)?)?;
    }
    let mut output = fs::create(rt, joining.output)?;
    for input in inputs {
        append_all(input, &mut output)?;
    }
    Ok(())
}

/// Writes what a reader has left.
fn append_all<I: Read + Drop, O: Write>(mut input: I, output: &mut O) -> io::Result<()>
    ensures { OnOk result (IfSome (I.remaining input) (Appends (O.contents output.old) (O.contents output.new))) }
{
    io::copy(&mut input, output)?;
    Ok(())
}
