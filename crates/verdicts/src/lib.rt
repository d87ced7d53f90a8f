// The verdict: what a type of person can ever reach, from a create command or from a stored design. Meets the definitions of `model`'s Verdicts,
// and the two outcomes of its calls. `calls` has the cores behind the two public calls; `answers` and `starts` are inner functions.
#![tactic(auto)]

pub mod answers;
pub mod calls;
pub mod starts;

use listing::rows::Row;

// What is asked of a start.
#[derive(Clone, Copy)]
pub struct Question {
    pub person_type: usize,
    pub right: usize,
    pub budget: usize,
}

// Where a listing starts: the kind, the row, and whether two people of one type overlap in it.
#[derive(Clone, Copy)]
pub struct Start {
    pub kind: usize,
    pub row: Row,
    pub overlap: bool,
}
