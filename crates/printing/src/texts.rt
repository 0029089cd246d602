//! Texts, written at once.
ghost use Rattle.std.specs.Prelude.{IfSome, OnOk};
ghost use Rattle.std.specs.Io.KnownBytes.{Appends};

use std::alloc::Global;
use std::fmt::Display;
use std::io;
use std::io::Write;

/// Writes what is told at once, when all of its text is made, and nothing where memory for it is wanting.
pub fn write_text<D: Display, W: Write>(heap: Global, told: &D, output: &mut W) -> io::Result<()>
    ensures { OnOk result (IfSome (D.output told.now) (Appends (W.contents output.old) (W.contents output.new))) }
{
    let text = told.to_string(heap)?;
    output.write_all(text.as_bytes())?;
    output.flush()
}
