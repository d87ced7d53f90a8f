// Runs the traps of docs/TRAPS.md that a caller meets, and prints what comes out: a T and the trap's number, a name, then the numbers or the lines that were
// given. They are those of verdicts and of what is handed over in lent words. What must come out is stored beside it, and the gate compares the two.
#![tactic(auto)]

mod judged;
mod stored;

use std::io;

fn main(rt: HostRuntime) -> io::Result<()> {
    judged::verdicts(&rt)?;
    stored::stores(&rt)
}
