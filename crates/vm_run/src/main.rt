// Plays the programs of a file of cases, and prints what each did.
#![tactic(auto)]

use crate::cases::Cases;
use crate::play::Play;
use std::fs;

mod cases;
mod digest;
mod play;
mod shown;

fn main(rt: HostRuntime) -> anyhow::Result<()> {
    let file = fs::read(&rt, "cases")?;
    for case in Cases::new(file.as_slice()) {
        let mut play = Play::new(rt.alloc(), case)?;
        play.run(case.turns)?;
        println!(rt; "{play}")?;
    }
    Ok(())
}
