// The whole texts that the two programs print, written into lent bytes: line after line, each put behind those before it. Meets the definitions of
// `model`'s Lines. Inner functions: the public calls go through them, and none is offered outside.
// Stays: a text is lent memory, written at a place that is handed on (`at` in, the end out), since the library has no memory of its own for it.
#![tactic(auto)]

pub mod batch;
pub mod parts;
pub mod refusal;
pub mod verdict;
