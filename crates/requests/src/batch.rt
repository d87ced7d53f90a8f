// A batch: each request is read from the rest of the body that begins at it, and is answered on what those before it left.
ghost use Rattle.std.specs.Prelude.{◌≡◌, true, map, ◌≤◌, length};
ghost use Rattle.model.specs.Sizes.{most_requests};
ghost use Rattle.model.specs.Answers.{batch_given};
ghost use Rattle.model.specs.Cards.{entries_fill, entries, request_of_entry};
ghost use Rattle.model.specs.Outcomes.{RunBatchOutcome};
ghost use Rattle.handed.specs.Handing.{handed_by, Accepted};
ghost use Rattle.requests.specs.Running.{AllAnswered};

use crate::answered;
use cards::batch::{MOST_REQUESTS, batch_body, next_request};
use handed::{accept, rooms};
use model::answers::Ran;
use model::refusal::{Refusal, number_given};
use rosters::Roster;
use schemes::Loaded;

// A request for each of the answers, one after the other, and its number there; and how many of them were carried out.
fn answer_all(
    l: &Loaded,
    roster: &Roster,
    store: &mut [u32],
    requests: &[u8],
    answers: &mut [u8],
) -> usize
    requires { Accepted (handed_by l.now roster.now.people roster.now.words.now store.old) × (entries_fill 4 (length answers.old) requests.now ≡ true) × (length answers.old ≤ most_requests) }
    ensures { AllAnswered (handed_by l.now roster.now.people roster.now.words.now store.old) (map request_of_entry (entries 4 (length answers.old) requests.now)) answers.old result store.new answers.new }
{
    let mut done = 0;
    let mut rest = requests;
    for answer in answers.iter_mut() {
        let Some((q, after)) = next_request(rest) else {
            unreachable!();
        };
        let given = answered(l, roster, store, &q);
        *answer = number_given(&given);
        done += usize::from(given.is_ok());
        rest = after;
    }
    done
}

// A batch on whatever is handed over: it is read through before its first request, and goes on after a refused one.
pub fn run_batch(
    l: &Loaded,
    roster: &[u32],
    people: usize,
    store: &mut [u32],
    card: &[u8],
    answers: &mut [u8],
) -> Result<Ran, Refusal>
    ensures { RunBatchOutcome (handed_by l.now people roster.now store.old) card.now answers.old (batch_given result) store.new answers.new }
{
    rooms(roster, store)?;
    if answers.len() < MOST_REQUESTS {
        return Err(Refusal::NoRoom);
    }
    let Some((requests, body)) = batch_body(card) else {
        return Err(Refusal::BadCard);
    };
    accept(l, roster, people, store)?;
    // Made anew: the roster that `accept` gives keeps the store lent.
    let roster = Roster {
        words: roster,
        people,
    };
    let done = answer_all(l, &roster, store, body, &mut answers[..requests]);
    Ok(Ran { requests, done })
}
