// Whether a request by a command that is there may be carried out, asked in the order 7, 8, 9, 4, and a create 10, 11, another 12, 13, 14. Nothing is
// written here.
ghost use Rattle.std.specs.Prelude.{◌≡◌, true, ◌<◌, IfOk};
ghost use Rattle.model.specs.Codes.{spelled};
ghost use Rattle.model.specs.Rosters.{roster_of};
ghost use Rattle.model.specs.Stores.{store_of};
ghost use Rattle.model.specs.Refusals.{number_given};
ghost use Rattle.model.specs.Requests.{two_people, create_number, other_number};
ghost use Rattle.requests.specs.Asking.{who_number, command_number};

use cards::batch::Request;
use codes::spelled;
use model::Command;
use model::refusal::Refusal;
use rights::within;
use rosters::Roster;
use stores::{MOST_DESIGNS, Store};

// Only a grant takes two people.
#[tactic(auto, unfolding(model::specs::Requests::two_people))]
fn two_people(c: Command, source: usize, destination: usize) -> bool
    ensures { result ≡ two_people c source destination }
{
    !c.is_grant() && source != destination
}

// The two people: both are there (7), they have the command's types (8), and a create or an internal has one (9).
#[tactic(auto, unfolding(crate::specs::Asking::who_number), using(laws::proofs::Kept::roster_length))]
fn people_allowed(
    c: Command,
    roster: &Roster,
    source: usize,
    destination: usize,
) -> Result<(), Refusal>
    ensures number { number_given result ≡ who_number c (roster_of roster.now.people roster.now.words.now) source destination }
    ensures few { IfOk result (λ u. (source < 32) × (destination < 32)) }
{
    if roster.people <= source || roster.people <= destination {
        return Err(Refusal::NoPerson);
    }
    if roster.type_at(source) != usize::from(c.source)
        || roster.type_at(destination) != usize::from(c.destination)
    {
        return Err(Refusal::OtherType);
    }
    if two_people(c, source, destination) {
        return Err(Refusal::TwoPeople);
    }
    Ok(())
}

// A create: the code is new (10), and there is room for it (11).
#[tactic(auto, unfolding(model::specs::Requests::create_number))]
fn create_allowed(store: &Store, code: &[u8]) -> Result<(), Refusal>
    requires { spelled code.now ≡ true }
    ensures { number_given result ≡ create_number (store_of store.now.words.now) code.now }
{
    if store.place_of(code).is_some() {
        return Err(Refusal::CodeExists);
    }
    if MOST_DESIGNS <= store.count() {
        return Err(Refusal::StoreFull);
    }
    Ok(())
}

// A grant or an internal: the design is there (12), has the command's kind (13), and X is within the source cell (14).
#[tactic(auto, unfolding(model::specs::Requests::other_number, model::specs::Forms::held))]
fn other_allowed(c: Command, store: &Store, source: usize, code: &[u8]) -> Result<(), Refusal>
    requires { (source < 32) × (spelled code.now ≡ true) }
    ensures { number_given result ≡ other_number c (store_of store.now.words.now) source code.now }
{
    let Some(design) = store.find(code) else {
        return Err(Refusal::NoDesign);
    };
    if design.kind() != usize::from(c.kind) {
        return Err(Refusal::OtherKind);
    }
    if !within(c.x, design.cell(source)) {
        return Err(Refusal::NotHeld);
    }
    Ok(())
}

// The request by a command that is there.
#[tactic(auto, unfolding(crate::specs::Asking::command_number), using(laws::proofs::Refusals::refused_here, laws::proofs::Refusals::passed_here))]
pub fn command_allowed(
    c: Command,
    roster: &Roster,
    store: &Store,
    q: &Request,
) -> Result<(), Refusal>
    ensures { number_given result ≡ command_number c (roster_of roster.now.people roster.now.words.now) (store_of store.now.words.now) q.now.source q.now.destination q.now.code.now }
{
    people_allowed(c, roster, q.source, q.destination)?;
    if !spelled(q.code) {
        return Err(Refusal::Misspelled);
    }
    if c.is_create() {
        return create_allowed(store, q.code);
    }
    other_allowed(c, store, q.source, q.code)
}
