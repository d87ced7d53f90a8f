// The public calls, and nothing else is public. Each takes every input, ends, and refuses bad input by its number; none has a
// `requires`. Its contract is its named outcome in `model/specs/Outcomes` or `Lines`, an equation for the answer and for every lent word.
// A call that takes the lent list of commands loads it into a value of its own, and lends that to the inner functions.
#![tactic(auto)]

ghost use Rattle.model.specs.Outcomes.{scheme_from, handed_from, request_from, question_from, ReadSchemeOutcome, ReadRosterOutcome, RequestOutcome, RunBatchOutcome, MayUseOutcome, AccessListOutcome, VerdictOfCreateOutcome, VerdictOfDesignOutcome};
ghost use Rattle.model.specs.Lines.{BatchTextOutcome, VerdictTextOutcome, BatchWantedOutcome, VerdictWantedOutcome};
ghost use Rattle.schemes.specs.Answers.{scheme_given};

use cards::batch::Request;
use lent::{load, store_all};
use model::refusal::{Refusal, number_given};
use model::{AccessList, BatchRun, Command, MayUse, RosterRead, SchemeRead, Text, Verdict};
use schemes::{Loaded, MOST_COMMANDS};
use verdicts::{Question, calls};

// A scheme card, read into the lent list: the scheme, of which the commands are written.
fn read_into(card: &[u8], commands: &mut [Command]) -> Result<Loaded, Refusal>
    ensures { ReadSchemeOutcome card.now commands.old (scheme_given result) commands.new }
{
    if commands.len() < MOST_COMMANDS {
        return Err(Refusal::NoRoom);
    }
    let scheme = cards::scheme::read_scheme(card)?;
    store_all(commands, &scheme);
    Ok(scheme)
}

// A scheme card, read into the lent list of commands.
pub fn read_scheme(card: &[u8], commands: &mut [Command]) -> SchemeRead
    ensures { ReadSchemeOutcome card.now commands.old result commands.new }
{
    match read_into(card, commands) {
        Ok(scheme) => scheme.into(),
        Err(refusal) => refusal.into(),
    }
}

// A roster card, read with its scheme into the lent roster.
pub fn read_roster(
    commands: &[Command],
    types: usize,
    kinds: usize,
    rights: usize,
    card: &[u8],
    roster: &mut [u32],
) -> RosterRead
    ensures { ReadRosterOutcome (scheme_from commands.now types kinds rights) card.now roster.old result roster.new }
{
    readers::read_roster(&load(commands, types, kinds, rights), card, roster).into()
}

// A command by a source person to a destination person, on the design with this code.
pub fn request(
    commands: &[Command],
    types: usize,
    kinds: usize,
    rights: usize,
    roster: &[u32],
    people: usize,
    store: &mut [u32],
    command: usize,
    source: usize,
    destination: usize,
    code: &[u8],
) -> u8
    ensures { RequestOutcome (handed_from (scheme_from commands.now types kinds rights) roster.now people store.old) (request_from command source destination code.now) result store.new }
{
    let l = load(commands, types, kinds, rights);
    let q = Request {
        command,
        source,
        destination,
        code,
    };
    number_given(&requests::request(&l, roster, people, store, &q))
}

// The requests of a batch card, one after the other, each with its answer.
pub fn run_batch(
    commands: &[Command],
    types: usize,
    kinds: usize,
    rights: usize,
    roster: &[u32],
    people: usize,
    store: &mut [u32],
    card: &[u8],
    answers: &mut [u8],
) -> BatchRun
    ensures { RunBatchOutcome (handed_from (scheme_from commands.now types kinds rights) roster.now people store.old) card.now answers.old result store.new answers.new }
{
    let l = load(commands, types, kinds, rights);
    requests::batch::run_batch(&l, roster, people, store, card, answers).into()
}

// May this person use this right on the design with this code?
pub fn may_use(
    commands: &[Command],
    types: usize,
    kinds: usize,
    rights: usize,
    roster: &[u32],
    people: usize,
    store: &[u32],
    person: usize,
    right: usize,
    code: &[u8],
) -> MayUse
    ensures { MayUseOutcome (handed_from (scheme_from commands.now types kinds rights) roster.now people store.now) person right code.now result }
{
    let l = load(commands, types, kinds, rights);
    questions::may_use(&l, roster, people, store, person, right, code).into()
}

// The access list of the design with this code.
pub fn access_list(
    commands: &[Command],
    types: usize,
    kinds: usize,
    rights: usize,
    roster: &[u32],
    people: usize,
    store: &[u32],
    code: &[u8],
    list: &mut [u32],
) -> AccessList
    ensures { AccessListOutcome (handed_from (scheme_from commands.now types kinds rights) roster.now people store.now) code.now list.old result list.new }
{
    let l = load(commands, types, kinds, rights);
    questions::access_list(&l, roster, people, store, code, list).into()
}

// What a type of person can ever reach on a design that this create command makes.
pub fn verdict_of_create(
    commands: &[Command],
    types: usize,
    kinds: usize,
    rights: usize,
    command: usize,
    person_type: usize,
    right: usize,
    budget: usize,
    table: &mut [u32],
) -> Verdict
    ensures { VerdictOfCreateOutcome (scheme_from commands.now types kinds rights) command (question_from person_type right budget) table.old result table.new }
{
    let l = load(commands, types, kinds, rights);
    let q = Question {
        person_type,
        right,
        budget,
    };
    calls::verdict_of_create(&l, command, &q, table).into()
}

// What a type of person can ever reach on the design with this code, as it stands.
pub fn verdict_of_design(
    commands: &[Command],
    types: usize,
    kinds: usize,
    rights: usize,
    roster: &[u32],
    people: usize,
    store: &[u32],
    code: &[u8],
    person_type: usize,
    right: usize,
    budget: usize,
    table: &mut [u32],
) -> Verdict
    ensures { VerdictOfDesignOutcome (handed_from (scheme_from commands.now types kinds rights) roster.now people store.now) code.now (question_from person_type right budget) table.old result table.new }
{
    let l = load(commands, types, kinds, rights);
    let q = Question {
        person_type,
        right,
        budget,
    };
    calls::verdict_of_design(&l, roster, people, store, code, &q, table).into()
}

// The text that the batch program prints for the bytes it has read.
pub fn batch_text(bytes: &[u8], text: &mut [u8]) -> Text
    ensures { BatchTextOutcome bytes.now text.old result text.new }
{
    texts::batch::batch_text(bytes, text).into()
}

// The text that the verdict program prints for the bytes it has read.
pub fn verdict_text(bytes: &[u8], table: &mut [u32], text: &mut [u8]) -> Text
    ensures { VerdictTextOutcome bytes.now table.old text.old result table.new text.new }
{
    texts::verdict::verdict_text(bytes, table, text).into()
}

// How many more bytes the batch program must read.
pub fn batch_wanted(bytes: &[u8]) -> usize
    ensures { BatchWantedOutcome bytes.now result }
{
    streams::batch_wanted(bytes)
}

// How many more bytes the verdict program must read.
pub fn verdict_wanted(bytes: &[u8]) -> usize
    ensures { VerdictWantedOutcome bytes.now result }
{
    streams::verdict_wanted(bytes)
}
