// The batch program's text: three cards are read, the batch is run on an empty store, and what it left is printed. The first refused card's number is
// printed alone.
ghost use Rattle.std.specs.Prelude.{◌≡◌, ◌≤◌, length, IfOk, IfErr};
ghost use Rattle.model.specs.Refusals.{number_given};
ghost use Rattle.model.specs.Answers.{text_given};
ghost use Rattle.model.specs.Lines.{batch_stream_number, batch_text, batch_text_room, BatchTextOutcome};
ghost use Rattle.lines.specs.Lines.{Put};
ghost use Rattle.texts.specs.Parts.{people_in, designs_in, KindsFit, run_parts};

use crate::parts::{put_answers, put_designs};
use crate::refusal::print_refusal;
use cards::batch::MOST_REQUESTS;
use cards::scheme::read_scheme;
use lines::{line_e, put};
use model::refusal::Refusal;
use readers::read_roster;
use requests::batch::run_batch;
use rosters::{MOST_PEOPLE, ROSTER_ROOM, Roster};
use stores::{MOST_DESIGNS, STORE_ROOM, Store};
use streams::split_card;

// The most bytes that the sizes allow: the answers, the designs with each person, and the last line.
const ROOM: usize = MOST_REQUESTS * 9 + MOST_DESIGNS * (17 + MOST_PEOPLE * 24) + 10;

// What a batch left: its answers, the designs, and its two counts.
fn put_run(text: &mut [u8], roster: &Roster, store: &Store, answers: &[u8], done: usize) -> usize
    requires { KindsFit (designs_in store.now) × (length answers.now ≤ 256) × (done ≤ 256) × (length (run_parts (people_in roster.now) (designs_in store.now) answers.now done) ≤ length text.old) }
    ensures { Put (run_parts (people_in roster.now) (designs_in store.now) answers.now done) 0 text.old result text.new }
{
    let answered = put_answers(text, 0, answers);
    let shown = put_designs(text, answered, roster, store);
    put(text, shown, line_e(answers.len(), done))
}

// The three cards, one after the other: the batch that is the last is run on an empty store and printed, if none of them is refused.
fn print_batch(bytes: &[u8], text: &mut [u8]) -> Result<usize, Refusal>
    requires { batch_text_room ≤ length text.old }
    ensures number { number_given result ≡ batch_stream_number bytes.now }
    ensures printed { IfOk result (λ end. Put (batch_text bytes.now) 0 text.old end text.new) }
    ensures left { IfErr result (λ r. text.new ≡ text.old) }
{
    let (card, rest) = split_card(bytes);
    let l = read_scheme(card)?;
    let (card, rest) = split_card(rest);
    let mut roster = [0; ROSTER_ROOM];
    let people = read_roster(&l, card, &mut roster)?;
    let (card, _) = split_card(rest);
    let mut store = [0; STORE_ROOM];
    let mut answers = [0; MOST_REQUESTS];
    let run = run_batch(&l, &roster, people, &mut store, card, &mut answers)?;
    let roster = Roster {
        words: &roster,
        people,
    };
    let store = Store { words: &store };
    Ok(put_run(text, &roster, &store, &answers[..run.requests], run.done))
}

// The whole text of the batch program for the bytes that it read.
pub fn batch_text(bytes: &[u8], text: &mut [u8]) -> Result<usize, Refusal>
    ensures { BatchTextOutcome bytes.now text.old (text_given result) text.new }
{
    if text.len() < ROOM {
        return Err(Refusal::NoRoom);
    }
    Ok(match print_batch(bytes, text) {
        Ok(end) => end,
        Err(refusal) => print_refusal(text, refusal.number()),
    })
}
