// Scripts written: one line for each command.
ghost use Rattle.std.specs.Prelude.{◌≡◌, map, IfOk};
ghost use Rattle.std.specs.String.{string_bytes};
ghost use Rattle.command.specs.Orders.{order_of};
ghost use Rattle.script.specs.Written.{written_of};

use command::kinds::Command;
use std::alloc::{AllocError, Global};

// The lines of the commands.
pub(crate) fn lines(heap: Global, commands: &[Command]) -> Result<String, AllocError>
    ensures { IfOk result (λ s. string_bytes s ≡ written_of (map order_of commands.now)) }
{
    let mut out = String::new(heap);
    for command in commands {
        writeln!(out, "{command}")?;
    }
    Ok(out)
}

// The script of the commands, each in a line of its own.
pub fn write(heap: Global, commands: &[Command]) -> Result<Vec<u8>, AllocError>
    ensures { IfOk result (λ v. v.items ≡ written_of (map order_of commands.now)) }
{
    Ok(lines(heap, commands)?.into_bytes())
}
