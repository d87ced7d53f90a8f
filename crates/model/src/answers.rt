// The answers' records, made of what a call found out: the number, and the value that comes with a 0.
ghost use Rattle.std.specs.Prelude.{◌≡◌};
ghost use Rattle.model.specs.Verdicts.{only};
ghost use Rattle.model.specs.Answers.{scheme_refused, roster_given, list_given, text_given, may_given, batch_given, judged, verdict_given};

use crate::refusal::{Refusal, number_given};
use crate::{AccessList, BatchRun, MayUse, RosterRead, SchemeRead, Text, Verdict};

// What a batch did: how many requests it has, and how many were answered 0.
#[derive(Clone, Copy, Debug, PartialEq, Eq)]
pub struct Ran {
    pub requests: usize,
    pub done: usize,
}

// What a verdict says of a start.
#[derive(Clone, Copy, Debug, PartialEq, Eq)]
pub enum Judgement {
    // 16: this command of the kind isn't normal, and none before it.
    NotNormal {
        command: usize,
    },
    // 17: two people of one type overlap on the stored design.
    Overlap,
    // 18: the listing has more states than the budget.
    PastBudget {
        budget: usize,
    },
    // 19: the first duplicate step.
    Duplicate {
        states: usize,
        state: usize,
        command: usize,
    },
    // 0: all states are listed, and this is the first that holds the right.
    Listed {
        states: usize,
        held: Option<usize>,
    },
}

// A refused scheme card; what a card holds that isn't is told by `schemes`.
impl From<Refusal> for SchemeRead {
    ghost from_gives = { λ refusal read. read ≡ scheme_refused refusal };

    fn from(refusal: Refusal) -> Self {
        SchemeRead {
            number: refusal.number(),
            types: 0,
            kinds: 0,
            rights: 0,
            commands: 0,
        }
    }
}

impl From<Result<usize, Refusal>> for RosterRead {
    ghost from_gives = { λ answer read. read ≡ roster_given answer };

    fn from(answer: Result<usize, Refusal>) -> Self {
        RosterRead {
            number: number_given(&answer),
            people: answer.unwrap_or(0),
        }
    }
}

impl From<Result<usize, Refusal>> for AccessList {
    ghost from_gives = { λ answer list. list ≡ list_given answer };

    fn from(answer: Result<usize, Refusal>) -> Self {
        AccessList {
            number: number_given(&answer),
            people: answer.unwrap_or(0),
        }
    }
}

impl From<Result<usize, Refusal>> for Text {
    ghost from_gives = { λ answer text. text ≡ text_given answer };

    fn from(answer: Result<usize, Refusal>) -> Self {
        Text {
            number: number_given(&answer),
            bytes: answer.unwrap_or(0),
        }
    }
}

impl From<Result<bool, Refusal>> for MayUse {
    ghost from_gives = { λ answer may. may ≡ may_given answer };

    fn from(answer: Result<bool, Refusal>) -> Self {
        match answer {
            Ok(may) => MayUse {
                number: 0,
                may: u8::from(may),
            },
            Err(refusal) => MayUse {
                number: refusal.number(),
                may: 0,
            },
        }
    }
}

impl From<Result<Ran, Refusal>> for BatchRun {
    ghost from_gives = { λ answer run. run ≡ batch_given answer };

    fn from(answer: Result<Ran, Refusal>) -> Self {
        match answer {
            Ok(Ran { requests, done }) => BatchRun {
                number: 0,
                requests,
                done,
            },
            Err(refusal) => BatchRun {
                number: refusal.number(),
                requests: 0,
                done: 0,
            },
        }
    }
}

// A number alone.
pub fn only(number: u8) -> Verdict
    ensures { result ≡ only number }
{
    Verdict {
        number,
        states: 0,
        held: 0,
        state: 0,
        command: 0,
    }
}

impl From<Judgement> for Verdict {
    ghost from_gives = { λ judgement verdict. verdict ≡ judged judgement };

    fn from(judgement: Judgement) -> Self {
        match judgement {
            Judgement::NotNormal { command } => Verdict {
                command,
                ..only(16)
            },
            Judgement::Overlap => only(17),
            Judgement::PastBudget { budget } => Verdict {
                states: budget,
                ..only(18)
            },
            Judgement::Duplicate {
                states,
                state,
                command,
            } => Verdict {
                states,
                state,
                command,
                ..only(19)
            },
            Judgement::Listed { states, held: None } => Verdict { states, ..only(0) },
            Judgement::Listed {
                states,
                held: Some(state),
            } => Verdict {
                states,
                held: 1,
                state,
                ..only(0)
            },
        }
    }
}

impl From<Result<Judgement, Refusal>> for Verdict {
    ghost from_gives = { λ answer verdict. verdict ≡ verdict_given answer };

    fn from(answer: Result<Judgement, Refusal>) -> Self {
        match answer {
            Ok(judgement) => judgement.into(),
            Err(refusal) => only(refusal.number()),
        }
    }
}
