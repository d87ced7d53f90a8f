// Runs the cases that are proved of the definitions, and the sizes, and prints what comes out: a case's name, then the numbers or the lines that were
// given. P1 to P12 are the proved cases, Scheme 1 to 6 those of `mill`'s papers. What must come out is stored beside it, and the gate compares the two.
#![tactic(auto)]

mod proved;
mod released;
mod sizes;

use std::io;

fn main(rt: HostRuntime) -> io::Result<()> {
    proved::proved(&rt)?;
    released::releases(&rt)?;
    sizes::sizes(&rt)
}
