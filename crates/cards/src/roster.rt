// The roster card: count of people, then for each a type, a code length, the code.
ghost use Rattle.std.specs.Prelude.{◌≡◌, true, false, drop, map, ◌*◌, ◌≤◌, length, get_or};
ghost use Rattle.model.specs.Words.{written_over, between};
ghost use Rattle.model.specs.Sizes.{most_people, roster_room};
ghost use Rattle.model.specs.Codes.{packed};
ghost use Rattle.model.specs.Rosters.{words_of_person, roster_words};
ghost use Rattle.model.specs.Cards.{body, entries_fill, entries, person_of_entry, people_of, is_roster_card};
ghost use Rattle.cards.specs.People.{spelled_only, readable};
ghost use Rattle.cards.specs.Given.{GivenIf};

use crate::body_of;
use crate::entries::{entries_fill, split_entry};
use codes::{pack, spelled};
use model::Code;
use rosters::PERSON_WORDS;

// The bytes of a person before the code.
pub const PERSON_FIXED: usize = 2;

// The card is a roster's: its people fill it.
#[tactic(auto, unfolding(model::specs::Cards::is_roster_card))]
pub fn is_roster_card(card: &[u8]) -> bool
    ensures { result ≡ is_roster_card card.now }
{
    let Some(body) = body_of(card) else {
        return false;
    };
    let Some((count, people)) = body.split_first() else {
        return false;
    };
    entries_fill::<PERSON_FIXED>(people, usize::from(*count))
}

// The count of people and the bytes of their entries, if the card is a roster's.
#[tactic(auto, unfolding(model::specs::Cards::is_roster_card))]
pub fn roster_body(card: &[u8]) -> Option<(usize, &[u8])>
    ensures { GivenIf (is_roster_card card.now) result (λ p. (p.0 ≡ get_or (body card.now) 0 0) × (p.1.now ≡ drop 1 (body card.now))) }
{
    if !is_roster_card(card) {
        return None;
    }
    let (count, people) = body_of(card)?.split_first()?;
    Some((usize::from(*count), people))
}

// The code, packed if it is spelled right; and else no code, which three zeros pack.
fn readable_code(code: &[u8]) -> Code
    ensures { result ≡ packed (spelled_only code.now) }
{
    if spelled(code) { pack(code) } else { pack(&[]) }
}

// The person of this type and code, written to the first four words.
#[tactic(auto, unfolding(model::specs::Words::written_over))]
fn write_person(of_type: u8, code: &[u8], words: &mut [u32])
    requires { 4 ≤ length words.old }
    ensures { words.new ≡ written_over (words_of_person (readable (record { type = of_type; code = code.now }))) words.old }
{
    let code = readable_code(code);
    words[..PERSON_WORDS].copy_from_slice(&[u32::from(of_type), code.a, code.b, code.c]);
}

// So many people, written one after the other: each from the rest that begins at the entry, to the free rest of the words.
// Stays: by the place in the words, of which nothing is known once an iterator has lent them out in parts.
#[tactic(auto, using(crate::proofs::Writing::whole_at_hand, crate::proofs::Writing::written_none))]
fn write_people(rest: &[u8], n: usize, words: &mut [u32])
    requires { (entries_fill 2 n rest.now ≡ true) × (4 * n ≤ length words.old) }
    ensures { words.new ≡ written_over (roster_words (map readable (map person_of_entry (entries 2 n rest.now)))) words.old }
{
    let mut left = rest;
    for i in 0..n {
        let Some(([of_type, _], code, after)) = split_entry::<PERSON_FIXED>(left) else {
            unreachable!();
        };
        write_person(*of_type, code, &mut words[PERSON_WORDS * i..]);
        left = after;
    }
}

// The people of the card, written to the lent words. A code that breaks the spelling is left out, so that the words are refused as the card is.
#[tactic(auto, using(crate::proofs::Filling::roster_filled), unfolding(model::specs::Cards::people_of))]
pub fn read_people(card: &[u8], words: &mut [u32])
    requires { (is_roster_card card.now ≡ true) × (between 1 most_people (get_or (body card.now) 0 0) ≡ true) × (roster_room ≤ length words.old) }
    ensures { words.new ≡ written_over (roster_words (map readable (people_of card.now))) words.old }
{
    let Some((n, people)) = roster_body(card) else {
        unreachable!();
    };
    write_people(people, n, words);
}
