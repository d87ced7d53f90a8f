// The parts of the batch program's text: the answers, and the designs with their access lists.
ghost use Rattle.std.specs.Prelude.{◌+◌, ◌≤◌, ◌<◌, length};
ghost use Rattle.model.specs.Lines.{lines_r, lines_d};
ghost use Rattle.lines.specs.Lines.{Put};
ghost use Rattle.texts.specs.Parts.{people_in, design_in, designs_in, person_text, access_text, designs_text, KindsFit};

use lines::{line_d, line_p, line_r, put};
use rosters::Roster;
use stores::{Design, Store};

// The answers of a batch, a line each.
#[tactic(auto, unfolding(model::specs::Lines::lines_r), using(crate::proofs::Growing::none_put))]
pub fn put_answers(text: &mut [u8], at: usize, answers: &[u8]) -> usize
    requires { (length answers.now ≤ 256) × (at + length (lines_r 0 answers.now) ≤ length text.old) }
    ensures { Put (lines_r 0 answers.now) at text.old result text.new }
{
    let mut end = at;
    for (i, answer) in answers.iter().enumerate() {
        end = put(text, end, line_r(i, usize::from(*answer)));
    }
    end
}

// A person in a design's access list: a line, or none where the cell is empty.
#[tactic(auto, unfolding(crate::specs::Parts::person_text, model::specs::Lines::line_p), using(lines::proofs::Texts::put_none))]
fn put_person(text: &mut [u8], at: usize, roster: &Roster, design: &Design, p: usize) -> usize
    requires { (p < roster.now.people) × (at + length (person_text (people_in roster.now) (design_in design.now).cells p) ≤ length text.old) }
    ensures { Put (person_text (people_in roster.now) (design_in design.now).cells p) at text.old result text.new }
{
    let cell = design.cell(p);
    if cell == 0 {
        return at;
    }
    put(text, at, line_p(roster.code_at(p), cell))
}

// A design's access list.
#[tactic(auto, using(crate::proofs::Growing::none_put, crate::proofs::Lines::access_whole))]
fn put_access(text: &mut [u8], at: usize, roster: &Roster, design: &Design) -> usize
    requires { at + length (access_text (people_in roster.now) (design_in design.now).cells) ≤ length text.old }
    ensures { Put (access_text (people_in roster.now) (design_in design.now).cells) at text.old result text.new }
{
    let mut end = at;
    for p in 0..roster.people {
        end = put_person(text, end, roster, design, p);
    }
    end
}

// A design, and its access list.
fn put_design(text: &mut [u8], at: usize, roster: &Roster, design: &Design) -> usize
    requires { ((design_in design.now).kind < 10000) × (at + length (lines_d (people_in roster.now) (design_in design.now)) ≤ length text.old) }
    ensures { Put (lines_d (people_in roster.now) (design_in design.now)) at text.old result text.new }
{
    let end = put(text, at, line_d(design.code(), design.kind()));
    put_access(text, end, roster, design)
}

// The designs, in order of creation.
#[tactic(auto, using(crate::proofs::Growing::none_put))]
pub fn put_designs(text: &mut [u8], at: usize, roster: &Roster, store: &Store) -> usize
    requires { KindsFit (designs_in store.now) × (at + length (designs_text (people_in roster.now) (designs_in store.now)) ≤ length text.old) }
    ensures { Put (designs_text (people_in roster.now) (designs_in store.now)) at text.old result text.new }
{
    let mut end = at;
    for place in 0..store.count() {
        end = put_design(text, end, roster, &store.design(place));
    }
    end
}
