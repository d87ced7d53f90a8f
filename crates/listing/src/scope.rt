// What a search goes over, which stays the same from row to row: the commands that are tried, the kind whose steps they are to be, and the most states that are listed.
use model::Command;

#[derive(Clone, Copy)]
pub struct Scope<'a> {
    pub commands: &'a [Command],
    pub kind: usize,
    pub budget: usize,
}
