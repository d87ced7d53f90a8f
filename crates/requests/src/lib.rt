// A request, and a batch of them: whether it may be carried out is decided before any word is written (`numbers`), and then it is (`stored`). Meets
// the definitions of `model`'s Requests and Outcomes. Inner functions: the public calls go through them, and none is offered outside.
#![tactic(auto)]

pub mod batch;
pub mod numbers;
pub mod stored;

ghost use Rattle.model.specs.Refusals.{number_given};
ghost use Rattle.model.specs.Outcomes.{request_from, RequestOutcome};
ghost use Rattle.handed.specs.Handing.{handed_by, Accepted};
ghost use Rattle.requests.specs.Asking.{Answered};

use cards::batch::Request;
use handed::{accept, rooms};
use model::refusal::Refusal;
use numbers::command_allowed;
use rosters::Roster;
use schemes::Loaded;
use stored::carry_out;
use stores::Store;

// A request on what is accepted: where it may be, it is carried out. A refused request changes nothing.
pub fn answered(l: &Loaded, roster: &Roster, store: &mut [u32], q: &Request) -> Result<(), Refusal>
    requires { Accepted (handed_by l.now roster.now.people roster.now.words.now store.old) }
    ensures { Answered (handed_by l.now roster.now.people roster.now.words.now store.old) (request_from q.now.command q.now.source q.now.destination q.now.code.now) (number_given result) store.new }
{
    let Some(c) = l.command(q.command) else {
        return Err(Refusal::NoCommand);
    };
    command_allowed(c, roster, &Store { words: store }, q)?;
    carry_out(c, store, q);
    Ok(())
}

// A request on whatever is handed over.
#[tactic(auto, using(crate::proofs::Answering::no_rooms, crate::proofs::Answering::not_accepted, crate::proofs::Answering::accepts))]
pub fn request(
    l: &Loaded,
    roster: &[u32],
    people: usize,
    store: &mut [u32],
    q: &Request,
) -> Result<(), Refusal>
    ensures { RequestOutcome (handed_by l.now people roster.now store.old) (request_from q.now.command q.now.source q.now.destination q.now.code.now) (number_given result) store.new }
{
    rooms(roster, store)?;
    accept(l, roster, people, store)?;
    // Made anew: the roster that `accept` gives keeps the store lent.
    let roster = Roster {
        words: roster,
        people,
    };
    answered(l, &roster, store, q)
}
