// What the commands of one kind say together, and the rows that a listing starts from. Meets the definitions of `model`'s Kinds. Inner
// functions: the verdict calls them, and none is offered outside.
#![tactic(auto)]

pub mod overlap;
pub mod sets;
pub mod starts;
