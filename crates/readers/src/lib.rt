// A roster card, read with its scheme into lent words. Meets the outcome of `read_roster` in `model`'s Outcomes. Inner functions: the public calls
// go through them, and none is offered outside.
#![tactic(auto)]

ghost use Rattle.std.specs.Prelude.{◌≡◌, length, IfOk};
ghost use Rattle.model.specs.Refusals.{number_given};
ghost use Rattle.model.specs.Answers.{roster_given};
ghost use Rattle.model.specs.Cards.{people_of, roster_card_number};
ghost use Rattle.model.specs.Outcomes.{ReadRosterOutcome};
ghost use Rattle.schemes.specs.Loads.{scheme_in};

use cards::roster::{read_people, roster_body};
use model::refusal::Refusal;
use rosters::{MOST_PEOPLE, ROSTER_ROOM, check_roster};
use schemes::Loaded;

// The count of a card's people, if nothing of it is refused: they are read into words of this function's own, and checked there.
#[tactic(auto, using(crate::proofs::Exits::no_card, crate::proofs::Exits::scheme_refused, crate::proofs::Exits::count_refused, crate::proofs::Exits::by_people, crate::proofs::Exits::people_count, crate::proofs::Exits::words_number))]
pub fn checked_people(l: &Loaded, card: &[u8]) -> Result<usize, Refusal>
    ensures number { number_given result ≡ roster_card_number (scheme_in l.now) card.now }
    ensures people { IfOk result (λ n. n ≡ length (people_of card.now)) }
{
    let (people, _) = roster_body(card).ok_or(Refusal::BadCard)?;
    l.check()?;
    if !(1..=MOST_PEOPLE).contains(&people) {
        return Err(Refusal::BadRoster);
    }
    let mut words = [0u32; ROSTER_ROOM];
    read_people(card, &mut words);
    let roster = check_roster(&words, people, l.types)?;
    Ok(roster.people)
}

// The people of a card, written to the lent words if nothing is refused, and how many they are.
#[tactic(auto, using(crate::proofs::Exits::accepted_card))]
pub fn read_roster(l: &Loaded, card: &[u8], roster: &mut [u32]) -> Result<usize, Refusal>
    ensures { ReadRosterOutcome (scheme_in l.now) card.now roster.old (roster_given result) roster.new }
{
    if roster.len() < ROSTER_ROOM {
        return Err(Refusal::NoRoom);
    }
    let people = checked_people(l, card)?;
    read_people(card, roster);
    Ok(people)
}
