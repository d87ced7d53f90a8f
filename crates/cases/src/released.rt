// The six worked schemes of document release: can the scientist, type 0, ever release, right 10?
use mill::papers::{added_3, added_4, added_5, paper_1, paper_2, paper_6};
use model::Command;
use std::io;
use trials::asking::{CREATE, Scheme, asked};

// A scheme's commands and those that are added to it, at the largest budget: three types, one kind and eleven rights.
fn released(rt: &impl Print, name: &str, first: &[Command], added: &[Command]) -> io::Result<()> {
    let mut commands = [CREATE; 12];
    for (place, command) in commands.iter_mut().zip(first.iter().chain(added)) {
        *place = *command;
    }
    let commands = commands.get(..first.len() + added.len()).unwrap_or(&[]);
    asked(rt, name, Scheme::new(3, 1, 11, commands), [0, 0, 10, 2048])
}

// Each of them; the third, the fourth and the fifth are what they add to the second.
pub fn releases(rt: &impl Print) -> io::Result<()> {
    released(rt, "Scheme 1: ", &paper_1()[..6], &[])?;
    released(rt, "Scheme 2: ", &paper_2(), &[])?;
    released(rt, "Scheme 3: ", &paper_2(), &added_3()[..2])?;
    released(rt, "Scheme 4: ", &paper_2(), &added_4()[..2])?;
    released(rt, "Scheme 5: ", &paper_2(), &added_5()[..5])?;
    released(rt, "Scheme 6: ", &paper_6()[..6], &[])
}
