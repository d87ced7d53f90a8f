// Runs the traps of docs/TRAPS.md that cards and requests have, and prints what comes out: a T and the trap's number, a name, then the lines that the batch
// program would print. What must come out is stored beside it, and the gate compares the two.
#![tactic(auto)]

mod rostered;
mod schemed;

use std::io;

fn main(rt: HostRuntime) -> io::Result<()> {
    schemed::schemes(&rt)?;
    rostered::rosters(&rt)
}
