// Stores in lent words: the count of designs, then 36 words a design: the kind, the three words of the code, and a cell for each of a roster's 32
// places. Meets the definitions of `model`'s Stores. Inner functions: every call that takes a store calls them, and none is offered outside.
#![tactic(auto)]

ghost use Rattle.std.specs.Prelude.{◌≡◌, ◌≤◌, ◌<◌, true, Some, None, eqb, length, get_or, drop, is_some, IfSome, IfOk};
ghost use Rattle.model.specs.Words.{◌when◌else◌, all};
ghost use Rattle.model.specs.Sizes.{store_room};
ghost use Rattle.model.specs.Rights.{fits_rights};
ghost use Rattle.model.specs.Codes.{spelled, unpacked};
ghost use Rattle.model.specs.Forms.{cell_at};
ghost use Rattle.model.specs.Refusals.{number_given};
ghost use Rattle.model.specs.Stores.{no_design, place_of, exists, design_at, named_number, fits_design, store_number, design_of, store_of};

use codes::{pack, spelled};
use model::Code;
use model::refusal::{Refusal, number_given};
use records::{Records, code_in};
use rights::fits_rights;

// The most designs in a store.
pub const MOST_DESIGNS: usize = 64;

// The words of a design.
pub const DESIGN_WORDS: usize = 36;

// Which of them is the first cell.
pub const FIRST_CELL: usize = 4;

// The words of a store: the count, and the most designs.
pub const STORE_ROOM: usize = 1 + MOST_DESIGNS * DESIGN_WORDS;

// How many designs the words count, which can be any number until the store is checked.
#[tactic(auto, using(crate::proofs::Designs::store_counts))]
pub fn design_count(words: &[u32]) -> usize
    requires { store_room ≤ length words.now }
    ensures { result ≡ length (store_of words.now) }
{
    words[0] as usize
}

// Each of the cells holds only rights below the count.
fn cells_fit(cells: &[u32], rights: usize) -> bool
    requires { rights ≤ 32 }
    ensures { result ≡ all (fits_rights rights) cells.now }
{
    cells.iter().all(|cell| fits_rights(*cell, rights))
}

// Each of the cells is empty.
fn cells_empty(cells: &[u32]) -> bool
    ensures { result ≡ all (λ cell. eqb cell 0) cells.now }
{
    cells.iter().all(|cell| *cell == 0)
}

// The words of one design.
#[derive(Clone, Copy)]
pub struct Design<'a> {
    pub words: &'a [u32],
    ghost whole: { length words.now ≡ 36 },
}

impl<'a> Design<'a> {
    pub fn kind(&self) -> usize
        ensures { result ≡ (design_of self.now.words.now).kind }
    {
        self.words[0] as usize
    }

    pub fn code(&self) -> Code
        ensures { unpacked result ≡ (design_of self.now.words.now).code }
    {
        code_in(self.words, 1)
    }

    // A cell for each of a roster's 32 places.
    pub fn cells(&self) -> &'a [u32]
        ensures { result.now ≡ (design_of self.now.words.now).cells }
    {
        &self.words[FIRST_CELL..]
    }

    // The cell that a person has.
    pub fn cell(&self, person: usize) -> u32
        requires { person < 32 }
        ensures { result ≡ cell_at (design_of self.now.words.now).cells person }
    {
        self.words[FIRST_CELL + person]
    }

    // The design has a kind and rights of the scheme's, and none past the roster. A cell past the roster is asked only whether it is empty.
    #[tactic(auto, using(crate::proofs::Fits::fits_is))]
    fn fits(&self, kinds: usize, rights: usize, people: usize) -> bool
        requires { (rights ≤ 32) × (people ≤ 32) }
        ensures { result ≡ fits_design kinds rights people (design_of self.now.words.now) }
    {
        let cells = self.cells();
        self.kind() < kinds && cells_fit(&cells[..people], rights) && cells_empty(&cells[people..])
    }
}

// Lent words that have room for the most designs, and count no more.
#[derive(Clone, Copy)]
pub struct Store<'a> {
    pub words: &'a [u32],
    ghost wide: { store_room ≤ length words.now },
    ghost few: { length (store_of words.now) ≤ 64 },
}

impl<'a> Store<'a> {
    // How many designs there are.
    pub fn count(&self) -> usize
        ensures { result ≡ length (store_of self.now.words.now) }
    {
        design_count(self.words)
    }

    // The designs as records.
    fn records(&self) -> Records<'a>
        ensures words { result.words.now ≡ drop 1 self.now.words.now }
        ensures size { result.size ≡ 36 }
        ensures count { result.count ≡ length (store_of self.now.words.now) }
    {
        Records {
            words: &self.words[1..],
            size: DESIGN_WORDS,
            count: self.count(),
        }
    }

    // The design at a place.
    pub fn design(&self, place: usize) -> Design<'a>
        requires { place < length (store_of self.now.words.now) }
        ensures { design_of result.words.now ≡ get_or (store_of self.now.words.now) place no_design }
    {
        let at = place * DESIGN_WORDS + 1;
        let end = at + DESIGN_WORDS;
        Design {
            words: &self.words[at..end],
        }
    }

    // The place of the first design with these three words for its code, which can be any.
    pub fn place(&self, code: Code) -> Option<usize>
        ensures { result ≡ (Some (place_of (unpacked code) (store_of self.now.words.now)) when exists (unpacked code) (store_of self.now.words.now) else None) }
    {
        self.records().place_of(code)
    }

    // The place of the design with this code.
    pub fn place_of(&self, code: &[u8]) -> Option<usize>
        requires { spelled code.now ≡ true }
        ensures { result ≡ (Some (place_of code.now (store_of self.now.words.now)) when exists code.now (store_of self.now.words.now) else None) }
    {
        self.place(pack(code))
    }

    // The design with this code.
    pub fn find(&self, code: &[u8]) -> Option<Design<'a>>
        requires { spelled code.now ≡ true }
        ensures some { is_some result ≡ exists code.now (store_of self.now.words.now) }
        ensures design { IfSome result (λ d. design_of d.words.now ≡ design_at code.now (store_of self.now.words.now)) }
    {
        let place = self.place_of(code)?;
        Some(self.design(place))
    }

    // The design that a call names, whose code can be any bytes.
    #[tactic(auto, using(crate::proofs::Numbers::misspelled_refused, crate::proofs::Numbers::named_by))]
    pub fn named(&self, code: &[u8]) -> Result<Design<'a>, Refusal>
        ensures number { number_given result ≡ named_number (store_of self.now.words.now) code.now }
        ensures design { IfOk result (λ d. design_of d.words.now ≡ design_at code.now (store_of self.now.words.now)) }
    {
        if !spelled(code) {
            return Err(Refusal::Misspelled);
        }
        self.find(code).ok_or(Refusal::NoDesign)
    }

    // Each of the designs fits the scheme and the roster.
    fn designs_fit(&self, kinds: usize, rights: usize, people: usize) -> bool
        requires { (rights ≤ 32) × (people ≤ 32) }
        ensures { result ≡ all (fits_design kinds rights people) (store_of self.now.words.now) }
    {
        (0..self.count()).all(|place| self.design(place).fits(kinds, rights, people))
    }
}

// The store in lent words, unless it counts more than 64 designs, a code is bad or repeated, or a design doesn't fit the scheme and the roster.
#[tactic(auto, using(crate::proofs::Designs::store_counts, crate::proofs::Numbers::many_refused, crate::proofs::Numbers::spelling_refused, crate::proofs::Numbers::same_refused, crate::proofs::Numbers::design_refused, crate::proofs::Numbers::store_accepted))]
pub fn check_store<'a>(
    words: &'a [u32],
    kinds: usize,
    rights: usize,
    people: usize,
) -> Result<Store<'a>, Refusal>
    requires { (rights ≤ 32) × (people ≤ 32) × (store_room ≤ length words.now) }
    ensures number { number_given result ≡ store_number kinds rights people (store_of words.now) }
    ensures store { IfOk result (λ s. s.words.now ≡ words.now) }
{
    if MOST_DESIGNS < design_count(words) {
        return Err(Refusal::BadStore);
    }
    let store = Store { words };
    let records = store.records();
    if !records.all_spelled()
        || !records.all_differ()
        || !store.designs_fit(kinds, rights, people)
    {
        return Err(Refusal::BadStore);
    }
    Ok(store)
}

// The number of the check: 21, or 0.
pub fn store_number(kinds: usize, rights: usize, people: usize, store: &[u32]) -> u8
    requires { (rights ≤ 32) × (people ≤ 32) × (store_room ≤ length store.now) }
    ensures { result ≡ store_number kinds rights people (store_of store.now) }
{
    number_given(&check_store(store, kinds, rights, people))
}
