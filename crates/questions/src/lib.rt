// The question "may this person use this right on this design", and the access list of a design. Meets the definitions of `model`'s
// Questions and Outcomes at what was handed over. Inner functions: the public calls load the scheme and go on here.
#![tactic(auto)]

ghost use Rattle.std.specs.Prelude.{◌≡◌, ◌≤◌, ◌<◌, length, IfOk};
ghost use Rattle.model.specs.Refusals.{number_given};
ghost use Rattle.model.specs.Answers.{may_given, list_given};
ghost use Rattle.model.specs.Forms.{cell_at};
ghost use Rattle.model.specs.Outcomes.{may_use_call_number, MayUseOutcome, access_list_number, AccessListOutcome, cells_in};
ghost use Rattle.handed.specs.Handing.{handed_by};
ghost use Rattle.questions.specs.Shown.{Shows};

use handed::{accept, rooms};
use model::refusal::Refusal;
use schemes::Loaded;

// The cell that the question is about: what is handed over, then 15, 7, 4, 12.
#[tactic(auto, using(crate::proofs::Asked::may_no_room, crate::proofs::Asked::may_not_handed, crate::proofs::Asked::may_no_right, crate::proofs::Asked::may_no_person, crate::proofs::Asked::may_named, crate::proofs::Asked::right_below))]
fn cell_asked(
    l: &Loaded,
    roster: &[u32],
    people: usize,
    store: &[u32],
    person: usize,
    right: usize,
    code: &[u8],
) -> Result<u32, Refusal>
    ensures number { number_given result ≡ may_use_call_number (handed_by l.now people roster.now store.now) person right code.now }
    ensures cell { IfOk result (λ cell. (cell ≡ cell_at (cells_in (handed_by l.now people roster.now store.now) code.now) person) × (right < 32)) }
{
    rooms(roster, store)?;
    let handed = accept(l, roster, people, store)?;
    if l.rights <= right {
        return Err(Refusal::OutOfRange);
    }
    if people <= person {
        return Err(Refusal::NoPerson);
    }
    let design = handed.store.named(code)?;
    Ok(design.cell(person))
}

// May this person use this right on the design with this code?
#[tactic(auto, using(crate::proofs::Asked::may_refused, crate::proofs::Asked::may_answered))]
pub fn may_use(
    l: &Loaded,
    roster: &[u32],
    people: usize,
    store: &[u32],
    person: usize,
    right: usize,
    code: &[u8],
) -> Result<bool, Refusal>
    ensures { MayUseOutcome (handed_by l.now people roster.now store.now) person right code.now (may_given result) }
{
    let cell = cell_asked(l, roster, people, store, person, right, code)?;
    Ok(rights::has(cell, right))
}

// The words that a list of 32 pairs takes.
const ACCESS_ROOM: usize = 64;

// The people with a cell that isn't empty, in roster order, are written into the list, a pair each. Gives how many they are.
fn show(cells: &[u32], people: usize, list: &mut [u32]) -> usize
    requires { (people ≤ 32) × (people ≤ length cells.now) × (64 ≤ length list.old) }
    ensures { Shows people cells.now list.old result list.new }
{
    let mut shown = 0;
    for person in 0..people {
        let cell = cells[person];
        if cell != 0 {
            let at = shown * 2;
            list[at] = person as u32;
            list[at + 1] = cell;
            shown += 1;
        }
    }
    shown
}

// The access list of the design with this code.
#[tactic(auto, using(crate::proofs::Asked::list_no_room, crate::proofs::Asked::list_short, crate::proofs::Asked::list_not_handed, crate::proofs::Asked::list_named, crate::proofs::Asked::list_refused, crate::proofs::Asked::list_answered))]
pub fn access_list(
    l: &Loaded,
    roster: &[u32],
    people: usize,
    store: &[u32],
    code: &[u8],
    list: &mut [u32],
) -> Result<usize, Refusal>
    ensures { AccessListOutcome (handed_by l.now people roster.now store.now) code.now list.old (list_given result) list.new }
{
    rooms(roster, store)?;
    if list.len() < ACCESS_ROOM {
        return Err(Refusal::NoRoom);
    }
    let handed = accept(l, roster, people, store)?;
    let design = handed.store.named(code)?;
    Ok(show(design.cells(), people, list))
}
