// Rosters in lent words, four a person: the type and the three words of the code. Meets the definitions of `model`'s Rosters. Inner functions:
// every call that takes a roster calls them, and none is offered outside.
#![tactic(auto)]

ghost use Rattle.std.specs.Prelude.{◌≡◌, not, ℕ, ◌≤◌, ◌<◌, ltb, length, get_or, IfOk};
ghost use Rattle.model.specs.Words.{any};
ghost use Rattle.model.specs.Sizes.{roster_room};
ghost use Rattle.model.specs.Codes.{unpacked};
ghost use Rattle.model.specs.Refusals.{number_given};
ghost use Rattle.model.specs.Rosters.{nobody, type_at, roster_number, roster_of};

use model::Code;
use model::refusal::{Refusal, number_given};
use records::{Records, code_in};

// The most people in a roster.
pub const MOST_PEOPLE: usize = 32;

// The words of a person.
pub const PERSON_WORDS: usize = 4;

// The words that the most people take.
pub const ROSTER_ROOM: usize = MOST_PEOPLE * PERSON_WORDS;

// So many people in lent words that have room for the most.
#[derive(Clone, Copy)]
pub struct Roster<'a> {
    pub words: &'a [u32],
    pub people: usize,
    ghost wide: { roster_room ≤ length words.now },
    ghost few: { people ≤ 32 },
}

impl<'a> Roster<'a> {
    // The type of a person, which can be any number until the roster is checked.
    pub fn type_at(&self, p: usize) -> usize
        requires { p < 32 }
        ensures { (count : ℕ) → p < count → result ≡ type_at (roster_of count self.now.words.now) p }
    {
        self.words[p * PERSON_WORDS] as usize
    }

    // The code of a person.
    pub fn code_at(&self, p: usize) -> Code
        requires { p < 32 }
        ensures { (count : ℕ) → p < count → unpacked result ≡ (get_or (roster_of count self.now.words.now) p nobody).code }
    {
        code_in(self.words, p * PERSON_WORDS + 1)
    }

    // The type of a person is out of range.
    fn is_type_out(&self, p: usize, types: usize) -> bool
        requires { p < self.now.people }
        ensures { result ≡ not (ltb (get_or (roster_of self.now.people self.now.words.now) p nobody).type types) }
    {
        types <= self.type_at(p)
    }

    // Some type is out of range.
    fn some_type_out(&self, types: usize) -> bool
        ensures { result ≡ any (λ p. not (ltb p.type types)) (roster_of self.now.people self.now.words.now) }
    {
        (0..self.people).any(|p| self.is_type_out(p, types))
    }
}

// The roster in lent words, unless its count or a type is out of range, a code is misspelled, or two are the same. The count can be any number
// until this is asked.
#[tactic(auto, using(crate::proofs::Numbers::nobody_refused, crate::proofs::Numbers::many_refused, crate::proofs::Numbers::type_refused, crate::proofs::Numbers::spelling_refused, crate::proofs::Numbers::same_refused, crate::proofs::Numbers::roster_accepted))]
pub fn check_roster<'a>(
    words: &'a [u32],
    people: usize,
    types: usize,
) -> Result<Roster<'a>, Refusal>
    requires { roster_room ≤ length words.now }
    ensures number { number_given result ≡ roster_number types (roster_of people words.now) }
    ensures roster { IfOk result (λ r. (r.people ≡ people) × (r.words.now ≡ words.now)) }
{
    if people == 0 || MOST_PEOPLE < people {
        return Err(Refusal::BadRoster);
    }
    let roster = Roster { words, people };
    let records = Records {
        words,
        size: PERSON_WORDS,
        count: people,
    };
    if roster.some_type_out(types) {
        return Err(Refusal::BadRoster);
    }
    if !records.all_spelled() {
        return Err(Refusal::Misspelled);
    }
    if !records.all_differ() {
        return Err(Refusal::SameCode);
    }
    Ok(roster)
}

// The number of the check: 3, 4, 5, or 0.
pub fn roster_number(types: usize, count: usize, roster: &[u32]) -> u8
    requires { roster_room ≤ length roster.now }
    ensures { result ≡ roster_number types (roster_of count roster.now) }
{
    number_given(&check_roster(roster, count, types))
}
