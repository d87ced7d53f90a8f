// Records in lent words, `size` words each: word 0 is a number, words 1 to 3 are a code. A roster's records have four words, a store's designs 36
// (from its word 1 on). What a roster and a store ask of their codes is asked here, once for both. Inner functions: `rosters` and `stores` call
// them, and none is offered outside.
#![tactic(auto)]

ghost use Rattle.std.specs.Prelude.{◌≡◌, ◌+◌, ◌*◌, ◌<◌, ◌≤◌, [], Some, None, ltb, length, get_or};
ghost use Rattle.model.specs.Words.{◌when◌else◌, all, first_place, same, all_differ};
ghost use Rattle.model.specs.Codes.{spelled, unpacked};
ghost use Rattle.records.specs.Records.{code_from, codes_in, is_new};

use codes::{same_code, spelled_words};
use model::Code;

// The code whose three words start at a place.
pub fn code_in(words: &[u32], at: usize) -> Code
    requires { at + 3 ≤ length words.now }
    ensures { result ≡ code_from words.now at }
{
    Code {
        a: words[at],
        b: words[at + 1],
        c: words[at + 2],
    }
}

// Records that stand one after the other from the first word on.
#[derive(Clone, Copy)]
pub struct Records<'a> {
    pub words: &'a [u32],
    pub size: usize,
    pub count: usize,
    ghost coded: { 4 ≤ size },
    ghost whole: { count * size ≤ length words.now },
}

impl<'a> Records<'a> {
    // The code of a record.
    pub fn code(&self, i: usize) -> Code
        requires { i < self.now.count }
        ensures words { result ≡ code_from self.now.words.now (i * self.now.size + 1) }
        ensures code { unpacked result ≡ get_or (codes_in self.now.size self.now.count self.now.words.now) i [] }
    {
        code_in(self.words, i * self.size + 1)
    }

    // The record has this code.
    fn has(&self, i: usize, code: Code) -> bool
        requires { i < self.now.count }
        ensures { result ≡ same (get_or (codes_in self.now.size self.now.count self.now.words.now) i []) (unpacked code) }
    {
        same_code(self.code(i), code)
    }

    // Each of the codes is spelled right.
    pub fn all_spelled(&self) -> bool
        ensures { result ≡ all spelled (codes_in self.now.size self.now.count self.now.words.now) }
    {
        (0..self.count).all(|i| spelled_words(self.code(i)))
    }

    // The place of the first record with this code.
    pub fn place_of(&self, code: Code) -> Option<usize>
        ensures { result ≡ (Some (first_place (λ c. same c (unpacked code)) (codes_in self.now.size self.now.count self.now.words.now))
            when ltb (first_place (λ c. same c (unpacked code)) (codes_in self.now.size self.now.count self.now.words.now)) self.now.count else None) }
    {
        (0..self.count).position(|i| self.has(i, code))
    }

    // No record before this one has its code.
    #[tactic(auto, unfolding(crate::specs::Records::is_new))]
    fn is_new(&self, i: usize) -> bool
        requires { i < self.now.count }
        ensures { result ≡ is_new (codes_in self.now.size self.now.count self.now.words.now) i }
    {
        self.place_of(self.code(i)) == Some(i)
    }

    // No two of the codes are the same: each is new where it stands.
    pub fn all_differ(&self) -> bool
        ensures { result ≡ all_differ (codes_in self.now.size self.now.count self.now.words.now) }
    {
        (0..self.count).all(|i| self.is_new(i))
    }
}
