// What is said of a script: its commands and their number, or its first bad line.
ghost use Rattle.std.specs.Prelude.{◌≡◌, map, IfOk};
ghost use Rattle.command.specs.Orders.{order_of};
ghost use Rattle.script.specs.Lines.{script_of};
ghost use Rattle.script.specs.Reports.{accepted_of, refused_of, report_of};

use crate::reader::{Unreadable, read};
use crate::writer::lines;
use command::kinds::Command;
use std::alloc::{AllocError, Global};

fn accepted(heap: Global, commands: &[Command]) -> Result<Vec<u8>, AllocError>
    ensures { IfOk result (λ v. v.items ≡ accepted_of (map order_of commands.now)) }
{
    let mut out = lines(heap, commands)?;
    let count = commands.len();
    writeln!(out, "{count} commands")?;
    Ok(out.into_bytes())
}

// Fault 14 and the line's number.
fn refused(heap: Global, line: usize) -> Result<Vec<u8>, AllocError>
    ensures { IfOk result (λ v. v.items ≡ refused_of line) }
{
    let said = format!(in heap; "14 {line}\n")?;
    Ok(said.into_bytes())
}

pub fn report(heap: Global, text: &[u8]) -> Result<Vec<u8>, AllocError>
    ensures { IfOk result (λ v. v.items ≡ report_of (script_of text.now)) }
{
    match read(heap, text) {
        Ok(commands) => accepted(heap, commands.as_slice()),
        Err(Unreadable::Line(line)) => refused(heap, line),
        Err(Unreadable::NoMemory) => Err(AllocError),
    }
}
