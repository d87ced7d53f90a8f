// What one command does to one stand-in state, "each type being one person".
ghost use Rattle.std.specs.Prelude.{◌&&◌, ◌≡◌, set};
ghost use Rattle.model.specs.Forms.{cell_at, lose};
ghost use Rattle.model.specs.Kinds.{is_step};
ghost use Rattle.model.specs.Listing.{fires, moved, is_duplicate};

use crate::rows::{ROW_WORDS, Row};
use model::Command;

// The command is a grant or an internal of the kind.
#[tactic(auto, unfolding(model::specs::Kinds::is_step))]
pub fn is_step(kind: usize, c: Command) -> bool
    ensures { result ≡ is_step kind c }
{
    usize::from(c.kind) == kind && (c.is_grant() || c.is_internal())
}

impl Row {
    // The rights at a type. A cell that is not there is empty.
    pub fn cell(self, t: usize) -> u32
        ensures { result ≡ cell_at self.cells t }
    {
        self.cells.get(t).copied().unwrap_or(0)
    }

    // The state with these rights at a type.
    #[tactic(auto, using(std::proofs::lemmas::List::set_past))]
    pub fn with_cell(mut self, t: usize, rights: u32) -> Row
        ensures { result.cells ≡ set self.cells t rights }
    {
        if t < ROW_WORDS {
            self.cells[t] = rights;
        }
        self
    }

    // The command is a step of the kind, and its X is held in the state.
    #[tactic(auto, unfolding(model::specs::Listing::fires, model::specs::Forms::held))]
    pub fn fires(self, kind: usize, c: Command) -> bool
        ensures { result ≡ fires kind c self.cells }
    {
        is_step(kind, c) && rights::within(c.x, self.cell(usize::from(c.source)))
    }

    // The state after the loss.
    #[tactic(auto, unfolding(model::specs::Forms::lose))]
    pub fn lost(self, c: Command) -> Row
        ensures { result.cells ≡ lose c c.source self.cells }
    {
        let source = usize::from(c.source);
        self.with_cell(source, rights::after_loss(c, self.cell(source)))
    }

    // The state after the loss and then the gain.
    #[tactic(auto, unfolding(model::specs::Listing::moved, model::specs::Forms::act, model::specs::Forms::gain))]
    pub fn moved(self, c: Command) -> Row
        ensures { result.cells ≡ moved c self.cells }
    {
        let next = self.lost(c);
        let destination = usize::from(c.destination);
        next.with_cell(destination, rights::after_gain(c, next.cell(destination)))
    }

    // After the loss, the destination type still holds a right of Z that is in the set.
    #[tactic(auto, unfolding(model::specs::Listing::is_duplicate))]
    pub fn duplicate_by(self, both: u32, c: Command) -> bool
        ensures { result ≡ is_duplicate both c self.cells }
    {
        let held = self.lost(c).cell(usize::from(c.destination));
        rights::meets(rights::common(held, c.z), both)
    }

    // The command fires in the state, and is a duplicate step in it.
    pub fn duplicate_step(self, both: u32, kind: usize, c: Command) -> bool
        ensures { result ≡ (fires kind c self.cells && is_duplicate both c self.cells) }
    {
        self.fires(kind, c) && self.duplicate_by(both, c)
    }
}
