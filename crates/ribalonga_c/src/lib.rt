// The public calls for C: each is exported under its own name, takes what the library's function of that name takes, says the same of it, and calls it.
#![tactic(auto)]

ghost use Rattle.model.specs.Outcomes.{scheme_from, handed_from, request_from, question_from, ReadSchemeOutcome, ReadRosterOutcome, RequestOutcome, RunBatchOutcome, MayUseOutcome, AccessListOutcome, VerdictOfCreateOutcome, VerdictOfDesignOutcome};
ghost use Rattle.model.specs.Lines.{BatchTextOutcome, VerdictTextOutcome, BatchWantedOutcome, VerdictWantedOutcome};

use model::{AccessList, BatchRun, Command, MayUse, RosterRead, SchemeRead, Text, Verdict};

// A scheme card, read into the lent list of commands.
#[unsafe(no_mangle)]
pub extern "C" fn read_scheme(card: &[u8], commands: &mut [Command]) -> SchemeRead
    ensures { ReadSchemeOutcome card.now commands.old result commands.new }
{
    ribalonga::read_scheme(card, commands)
}

// A roster card, read with its scheme into the lent roster.
#[unsafe(no_mangle)]
pub extern "C" fn read_roster(
    commands: &[Command],
    types: usize,
    kinds: usize,
    rights: usize,
    card: &[u8],
    roster: &mut [u32],
) -> RosterRead
    ensures { ReadRosterOutcome (scheme_from commands.now types kinds rights) card.now roster.old result roster.new }
{
    ribalonga::read_roster(commands, types, kinds, rights, card, roster)
}

// A command by a source person to a destination person, on the design with this code.
#[unsafe(no_mangle)]
pub extern "C" fn request(
    commands: &[Command],
    types: usize,
    kinds: usize,
    rights: usize,
    roster: &[u32],
    people: usize,
    store: &mut [u32],
    command: usize,
    source: usize,
    destination: usize,
    code: &[u8],
) -> u8
    ensures { RequestOutcome (handed_from (scheme_from commands.now types kinds rights) roster.now people store.old) (request_from command source destination code.now) result store.new }
{
    ribalonga::request(
        commands,
        types,
        kinds,
        rights,
        roster,
        people,
        store,
        command,
        source,
        destination,
        code,
    )
}

// The requests of a batch card, one after the other, each with its answer.
#[unsafe(no_mangle)]
pub extern "C" fn run_batch(
    commands: &[Command],
    types: usize,
    kinds: usize,
    rights: usize,
    roster: &[u32],
    people: usize,
    store: &mut [u32],
    card: &[u8],
    answers: &mut [u8],
) -> BatchRun
    ensures { RunBatchOutcome (handed_from (scheme_from commands.now types kinds rights) roster.now people store.old) card.now answers.old result store.new answers.new }
{
    ribalonga::run_batch(
        commands, types, kinds, rights, roster, people, store, card, answers,
    )
}

// May this person use this right on the design with this code?
#[unsafe(no_mangle)]
pub extern "C" fn may_use(
    commands: &[Command],
    types: usize,
    kinds: usize,
    rights: usize,
    roster: &[u32],
    people: usize,
    store: &[u32],
    person: usize,
    right: usize,
    code: &[u8],
) -> MayUse
    ensures { MayUseOutcome (handed_from (scheme_from commands.now types kinds rights) roster.now people store.now) person right code.now result }
{
    ribalonga::may_use(
        commands, types, kinds, rights, roster, people, store, person, right, code,
    )
}

// The access list of the design with this code.
#[unsafe(no_mangle)]
pub extern "C" fn access_list(
    commands: &[Command],
    types: usize,
    kinds: usize,
    rights: usize,
    roster: &[u32],
    people: usize,
    store: &[u32],
    code: &[u8],
    list: &mut [u32],
) -> AccessList
    ensures { AccessListOutcome (handed_from (scheme_from commands.now types kinds rights) roster.now people store.now) code.now list.old result list.new }
{
    ribalonga::access_list(
        commands, types, kinds, rights, roster, people, store, code, list,
    )
}

// What a type of person can ever reach on a design that this create command makes.
#[unsafe(no_mangle)]
pub extern "C" fn verdict_of_create(
    commands: &[Command],
    types: usize,
    kinds: usize,
    rights: usize,
    command: usize,
    person_type: usize,
    right: usize,
    budget: usize,
    table: &mut [u32],
) -> Verdict
    ensures { VerdictOfCreateOutcome (scheme_from commands.now types kinds rights) command (question_from person_type right budget) table.old result table.new }
{
    ribalonga::verdict_of_create(
        commands,
        types,
        kinds,
        rights,
        command,
        person_type,
        right,
        budget,
        table,
    )
}

// What a type of person can ever reach on the design with this code, as it stands.
#[unsafe(no_mangle)]
pub extern "C" fn verdict_of_design(
    commands: &[Command],
    types: usize,
    kinds: usize,
    rights: usize,
    roster: &[u32],
    people: usize,
    store: &[u32],
    code: &[u8],
    person_type: usize,
    right: usize,
    budget: usize,
    table: &mut [u32],
) -> Verdict
    ensures { VerdictOfDesignOutcome (handed_from (scheme_from commands.now types kinds rights) roster.now people store.now) code.now (question_from person_type right budget) table.old result table.new }
{
    ribalonga::verdict_of_design(
        commands,
        types,
        kinds,
        rights,
        roster,
        people,
        store,
        code,
        person_type,
        right,
        budget,
        table,
    )
}

// The text that the batch program prints for the bytes it has read.
#[unsafe(no_mangle)]
pub extern "C" fn batch_text(bytes: &[u8], text: &mut [u8]) -> Text
    ensures { BatchTextOutcome bytes.now text.old result text.new }
{
    ribalonga::batch_text(bytes, text)
}

// The text that the verdict program prints for the bytes it has read.
#[unsafe(no_mangle)]
pub extern "C" fn verdict_text(bytes: &[u8], table: &mut [u32], text: &mut [u8]) -> Text
    ensures { VerdictTextOutcome bytes.now table.old text.old result table.new text.new }
{
    ribalonga::verdict_text(bytes, table, text)
}

// How many more bytes the batch program must read.
#[unsafe(no_mangle)]
pub extern "C" fn batch_wanted(bytes: &[u8]) -> usize
    ensures { BatchWantedOutcome bytes.now result }
{
    ribalonga::batch_wanted(bytes)
}

// How many more bytes the verdict program must read.
#[unsafe(no_mangle)]
pub extern "C" fn verdict_wanted(bytes: &[u8]) -> usize
    ensures { VerdictWantedOutcome bytes.now result }
{
    ribalonga::verdict_wanted(bytes)
}
