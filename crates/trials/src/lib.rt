// What the programs `cases`, `traps` and `calls` share: `writing` writes the cards of a case, `asking` has its schemes, people and calls, `printing` prints what
// came out. Its functions promise that they end without a fault, and those of a `Room`, and `new`, `bytes`, `set`, `truncate` and `as_slice` of a stream,
// which bytes there are. What the three programs print is compared with a stored file; `tests` has longer streams.
#![tactic(auto)]

pub mod asking;
pub mod printing;
#[cfg(test)]
mod tests;
pub mod writing;
