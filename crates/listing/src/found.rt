// What is looked up in the rows of the table, once they are listed.
ghost use Rattle.std.specs.Prelude.{map, ◌≡◌, ◌<◌, position, cond, Some, None};
ghost use Rattle.model.specs.Words.{◌when◌else◌};
ghost use Rattle.model.specs.Sizes.{most_rights};
ghost use Rattle.model.specs.Rights.{has, together};
ghost use Rattle.model.specs.Forms.{cell_at};
ghost use Rattle.model.specs.Listing.{first_duplicate, has_duplicate};
ghost use Rattle.listing.specs.Tables.{rows_of};

use crate::rows::{Row, Rows};
use model::Command;

impl<'a> Rows<'a> {
    // The first row that holds the right at type t.
    pub fn first_holding(&self, t: usize, right: usize) -> Option<usize>
        requires { right < most_rights }
        ensures { result ≡ position (λ row. has (cell_at row t) right) (rows_of self.now) }
    {
        (0..self.count).position(|i| rights::has(self.row(i).cell(t), right))
    }

    // All rights that the rows hold at type t, put together from the last row on.
    pub fn union_at(&self, t: usize) -> u32
        ensures { result ≡ together (map (λ row. cell_at row t) (rows_of self.now)) }
    {
        let mut set = 0;
        // Stays: a fold over the numbers from the last on; its proof did not close.
        for i in (0..self.count).rev() {
            set = rights::with_those(self.row(i).cell(t), set);
        }
        set
    }

    // The first row in which one of the commands is a duplicate step.
    pub fn first_duplicate(&self, kind: usize, both: u32, commands: &[Command]) -> Option<usize>
        ensures { result ≡ position (has_duplicate both commands.now kind) (rows_of self.now) }
    {
        (0..self.count).position(|i| self.row(i).has_duplicate(kind, both, commands))
    }
}

impl Row {
    // The first of the commands that is a duplicate step in the state.
    pub fn first_duplicate(self, kind: usize, both: u32, commands: &[Command]) -> Option<usize>
        ensures { result ≡ (Some (first_duplicate both commands.now kind self.cells) when has_duplicate both commands.now kind self.cells else None) }
    {
        commands
            .iter()
            .position(|c| self.duplicate_step(both, kind, *c))
    }

    // One of the commands is a duplicate step in the state.
    #[tactic(auto, using(crate::proofs::Duplicated::given_when))]
    fn has_duplicate(self, kind: usize, both: u32, commands: &[Command]) -> bool
        ensures { result ≡ has_duplicate both commands.now kind self.cells }
    {
        self.first_duplicate(kind, both, commands).is_some()
    }
}
