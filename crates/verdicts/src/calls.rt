// The cores of the two public calls: what is refused before 16, then the verdict.
ghost use Rattle.std.specs.Prelude.{◌≡◌};
ghost use Rattle.model.specs.Verdicts.{is_in_range};
ghost use Rattle.model.specs.Answers.{verdict_given};
ghost use Rattle.model.specs.Outcomes.{VerdictOfCreateOutcome, VerdictOfDesignOutcome};
ghost use Rattle.schemes.specs.Loads.{scheme_in};
ghost use Rattle.handed.specs.Handing.{handed_by};
ghost use Rattle.verdicts.specs.Asking.{question_by};

use crate::Question;
use crate::starts::{from_create, from_design};
use handed::{accept, rooms};
use listing::rows::ROW_WORDS;
use model::answers::Judgement;
use model::refusal::Refusal;
use schemes::Loaded;

// The most states that a question may ask for.
pub const MOST_STATES: usize = 2048;

// The question is in range: type, right and budget, and the table's length for it.
#[tactic(auto, unfolding(model::specs::Verdicts::is_in_range))]
fn is_in_range(l: &Loaded, q: &Question, words: usize) -> bool
    ensures { result ≡ is_in_range (scheme_in l.now) (question_by q.now) words }
{
    q.person_type < l.types
        && q.right < l.rights
        && (1..=MOST_STATES).contains(&q.budget)
        && ROW_WORDS * q.budget <= words
}

// 2, 15, 16, 18, 19 and 0.
pub fn verdict_of_create(
    l: &Loaded,
    command: usize,
    q: &Question,
    table: &mut [u32],
) -> Result<Judgement, Refusal>
    ensures { VerdictOfCreateOutcome (scheme_in l.now) command (question_by q.now) table.old (verdict_given result) table.new }
{
    l.check()?;
    if !is_in_range(l, q, table.len()) {
        return Err(Refusal::OutOfRange);
    }
    match l.command(command) {
        Some(c) if c.is_create() => Ok(from_create(l, c, q, table)),
        _ => Err(Refusal::OutOfRange),
    }
}

// 20, 2, 3, 4, 5, 21, 15, 4, 12, 16, 17, 18, 19 and 0.
pub fn verdict_of_design(
    l: &Loaded,
    roster: &[u32],
    people: usize,
    store: &[u32],
    code: &[u8],
    q: &Question,
    table: &mut [u32],
) -> Result<Judgement, Refusal>
    ensures { VerdictOfDesignOutcome (handed_by l.now people roster.now store.now) code.now (question_by q.now) table.old (verdict_given result) table.new }
{
    rooms(roster, store)?;
    let handed = accept(l, roster, people, store)?;
    if !is_in_range(l, q, table.len()) {
        return Err(Refusal::OutOfRange);
    }
    let design = handed.store.named(code)?;
    Ok(from_design(l, &handed.roster, &design, q, table))
}
