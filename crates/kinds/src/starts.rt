// The rows that a listing starts from: of a create command, and of a design in the store.
ghost use Rattle.std.specs.Prelude.{◌≡◌, ◌<◌, ◌≤◌, length};
ghost use Rattle.model.specs.Sizes.{row_words};
ghost use Rattle.model.specs.Rosters.{roster_of};
ghost use Rattle.model.specs.Kinds.{row_of_create, of_type, row_of_design};

use listing::rows::{ROW_WORDS, Row};
use model::Command;
use rosters::Roster;
use std::array;

// A create command: Z at its source type.
#[tactic(auto, unfolding(model::specs::Kinds::row_of_create, model::specs::Forms::created))]
pub fn row_of_create(c: Command) -> Row
    ensures { result.cells ≡ row_of_create c }
{
    let empty = Row {
        cells: [0; ROW_WORDS],
    };
    empty.with_cell(usize::from(c.source), c.z)
}

// All rights of the type's people at the design, put together from the last person on.
pub fn of_type(roster: &Roster, cells: &[u32], t: usize) -> u32
    requires { 32 ≤ length cells.now }
    ensures { result ≡ of_type (roster_of roster.now.people roster.now.words.now) cells.now t }
{
    let mut set = 0;
    for p in (0..roster.people).rev() {
        if roster.type_at(p) == t {
            set = rights::with_those(cells[p], set);
        }
    }
    set
}

// A design in the store: at each type, all rights of its people.
#[tactic(auto, unfolding(model::specs::Kinds::row_of_design))]
pub fn row_of_design(roster: &Roster, cells: &[u32]) -> Row
    requires { 32 ≤ length cells.now }
    ensures { result.cells ≡ row_of_design (roster_of roster.now.people roster.now.words.now) cells.now }
{
    Row {
        cells: array::from_fn(|t| of_type(roster, cells, t)),
    }
}
