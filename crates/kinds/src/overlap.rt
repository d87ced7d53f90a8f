// Overlap: two people of one type hold the same right that is both propagation and deletable. The set handed over is those rights.
ghost use Rattle.std.specs.Prelude.{List, ◌≡◌, ℕ, ◌<◌, ◌≤◌, length};
ghost use Rattle.model.specs.declared.Command.{Command};
ghost use Rattle.model.specs.Rosters.{roster_of};
ghost use Rattle.model.specs.Kinds.{both, overlaps};
ghost use Rattle.kinds.specs.Designs.{share, clashes};

use rosters::Roster;

// Two people have one type, and hold the same right of the set at the design.
fn share(set: u32, roster: &Roster, cells: &[u32], a: usize, b: usize) -> bool
    requires { (a < roster.now.people) × (b < roster.now.people) × (32 ≤ length cells.now) }
    ensures { result ≡ share set (roster_of roster.now.people roster.now.words.now) cells.now a b }
{
    roster.type_at(a) == roster.type_at(b) && rights::meets(rights::common(cells[a], cells[b]), set)
}

// Person a overlaps with someone behind it.
#[tactic(auto, unfolding(crate::specs::Designs::clashes))]
fn overlaps_behind(set: u32, roster: &Roster, cells: &[u32], a: usize) -> bool
    requires { (a < roster.now.people) × (32 ≤ length cells.now) }
    ensures { result ≡ clashes set roster.now.people (roster_of roster.now.people roster.now.words.now) cells.now a }
{
    (0..roster.people).any(|b| a < b && share(set, roster, cells, a, b))
}

// Some two people overlap.
pub fn overlaps(set: u32, roster: &Roster, cells: &[u32]) -> bool
    requires { 32 ≤ length cells.now }
    ensures { (commands : List Command) (kind : ℕ) → set ≡ both commands kind → result ≡ overlaps commands kind (roster_of roster.now.people roster.now.words.now) cells.now }
{
    (0..roster.people).any(|a| overlaps_behind(set, roster, cells, a))
}
