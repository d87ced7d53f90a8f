// A scheme, a roster and a store, as they are handed over to a call: whether the buffers have room (20), and what the three break (2, 3, 4, 5, 21).
// Meets the definitions of `model`'s Outcomes at what was handed over, `handed_by`. Inner functions: every call that takes a store begins with them, and
// none is offered outside.
#![tactic(auto)]

ghost use Rattle.std.specs.Prelude.{◌≡◌, ◌≤◌, length, IfOk};
ghost use Rattle.model.specs.Sizes.{roster_room, store_room};
ghost use Rattle.model.specs.Refusals.{number_given};
ghost use Rattle.model.specs.Outcomes.{handed_number};
ghost use Rattle.handed.specs.Handing.{handed_by, rooms_number};

use model::refusal::Refusal;
use rosters::{ROSTER_ROOM, Roster, check_roster};
use schemes::Loaded;
use stores::{STORE_ROOM, Store, check_store};

// What is accepted: the scheme, and the roster and the store by their words.
#[derive(Clone, Copy)]
pub struct Handed<'a> {
    pub scheme: &'a Loaded,
    pub roster: Roster<'a>,
    pub store: Store<'a>,
    pub ghost accepted: { handed_number (handed_by scheme.now roster.people roster.words.now store.words.now) ≡ 0 },
}

// Roster and store have room for the most that the sizes allow, whatever the counts say.
pub fn rooms(roster: &[u32], store: &[u32]) -> Result<(), Refusal>
    ensures { number_given result ≡ rooms_number roster.now store.now }
{
    if roster.len() < ROSTER_ROOM || store.len() < STORE_ROOM {
        return Err(Refusal::NoRoom);
    }
    Ok(())
}

// What is handed over, checked: the scheme, then the roster, then the store. The count of people can be any number until this is asked.
#[tactic(auto, using(crate::proofs::Numbers::scheme_ends, crate::proofs::Numbers::roster_ends, crate::proofs::Numbers::store_ends))]
pub fn accept<'a>(
    scheme: &'a Loaded,
    roster: &'a [u32],
    people: usize,
    store: &'a [u32],
) -> Result<Handed<'a>, Refusal>
    requires { (roster_room ≤ length roster.now) × (store_room ≤ length store.now) }
    ensures number { number_given result ≡ handed_number (handed_by scheme.now people roster.now store.now) }
    ensures kept { IfOk result (λ h. scheme.now.count ≤ 64) }
    ensures handed { IfOk result (λ h. (h.scheme.now ≡ scheme.now) × (h.roster.people ≡ people) × (h.roster.words.now ≡ roster.now) × (h.store.words.now ≡ store.now)) }
{
    scheme.check()?;
    let roster = check_roster(roster, people, scheme.types)?;
    let store = check_store(store, scheme.kinds, scheme.rights, people)?;
    Ok(Handed {
        scheme,
        roster,
        store,
    })
}
