// The listing of stand-in states: rows of eight cells in a lent table, the search that lists them, and what is looked up in the listed
// rows. Meets the definitions of `model`'s Listing. Inner functions: the verdict calls them, and none is offered outside.
#![tactic(auto)]

pub mod found;
pub mod rows;
pub mod scope;
pub mod search;
pub mod steps;
