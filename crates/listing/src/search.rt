// The search: each command is tried on each listed row in order, and a new state is written into the free rest of the table.
ghost use Rattle.std.specs.Prelude.{◌≤◌};
ghost use Rattle.model.specs.Words.{groups};
ghost use Rattle.model.specs.Sizes.{row_words, most_commands};
ghost use Rattle.model.specs.Schemes.{command_in};
ghost use Rattle.model.specs.Listing.{put, tried, expanded, listing};
ghost use Rattle.schemes.specs.Loads.{listed};
ghost use Rattle.listing.specs.Searches.{Lists, Room, MayTry, Tried};

use crate::rows::{ROW_WORDS, Row, Rows, write_row};
use crate::scope::Scope;
use schemes::Loaded;

// How far a search is: rows listed, row at hand, command at hand. One row more than the budget says that the search was cut.
#[derive(Clone, Copy)]
pub struct Progress {
    pub rows: usize,
    pub row: usize,
    pub command: usize,
}

impl<'a> Scope<'a> {
    // The state is put at the end if it isn't there: into the free rest of the table, if the budget has room for it. Gives the rows listed.
    pub fn put(&self, table: &mut [u32], rows: usize, row: Row) -> usize
        requires { (rows ≤ self.now.budget) × Room self.now.budget table.old }
        ensures { Lists (put row.cells (groups row_words rows table.old)) self.now.budget table.old result table.new }
    {
        let listed = Rows {
            table: &*table,
            count: rows,
        };
        if listed.has_row(row) {
            return rows;
        }
        if rows < self.budget {
            let at = rows * ROW_WORDS;
            write_row(&mut table[at..], row);
        }
        rows + 1
    }

    // The command at hand is tried on the row at hand, and the next command is at hand.
    pub fn advance(&self, p: Progress, table: &mut [u32], row: Row) -> Progress
        requires { MayTry self.now p table.old }
        ensures { Tried (tried self.now.kind (command_in self.now.commands.now p.command) row.cells (groups row_words p.rows table.old)) self.now.budget table.old p result table.new }
    {
        let command = self.commands[p.command];
        let rows = if row.fires(self.kind, command) {
            self.put(table, p.rows, row.moved(command))
        } else {
            p.rows
        };
        Progress {
            rows,
            row: p.row,
            command: p.command + 1,
        }
    }

    // The same in place: the progress is lent, and moved on.
    pub fn step(&self, p: &mut Progress, table: &mut [u32], row: Row)
        requires { MayTry self.now p.old table.old }
        ensures { Tried (tried self.now.kind (command_in self.now.commands.now p.old.command) row.cells (groups row_words p.old.rows table.old)) self.now.budget table.old p.old p.new table.new }
    {
        *p = self.advance(*p, table, row);
    }

    // The progress is put where it can be lent, moved on in place, and handed back.
    pub fn stepped(&self, mut p: Progress, table: &mut [u32], row: Row) -> Progress
        requires { MayTry self.now p table.old }
        ensures { Tried (tried self.now.kind (command_in self.now.commands.now p.command) row.cells (groups row_words p.rows table.old)) self.now.budget table.old p result table.new }
    {
        self.step(&mut p, table, row);
        p
    }

    // The row at hand is expanded: the commands are tried on it in scheme order, unless the search is cut.
    pub fn expanded(&self, p: Progress, table: &mut [u32], row: Row) -> Progress
        requires { (p.rows ≤ self.now.budget) × Room self.now.budget table.old }
        ensures { Lists (expanded self.now.kind self.now.commands.now row.cells (groups row_words p.rows table.old)) self.now.budget table.old result.rows table.new }
    {
        let mut q = Progress { command: 0, ..p };
        while q.command < self.commands.len() && q.rows <= self.budget {
            q = self.stepped(q, table, row);
        }
        q
    }
}

// The listing from a start, gone through row by row, until its last row or until the search is cut.
pub fn search(l: &Loaded, kind: usize, start: Row, budget: usize, table: &mut [u32]) -> Progress
    requires { (1 ≤ budget) × (Room budget table.old × (l.now.count ≤ most_commands)) }
    ensures { Lists (listing (listed l.now) kind start.cells budget) budget table.old result.rows table.new }
{
    let scope = Scope {
        commands: l.kept(),
        kind,
        budget,
    };
    let mut p = Progress {
        rows: scope.put(table, 0, start),
        row: 0,
        command: 0,
    };
    while p.row < p.rows && p.rows <= budget {
        let listed = Rows {
            table: &*table,
            count: p.rows,
        };
        let row = listed.row(p.row);
        let next = scope.expanded(p, table, row);
        p = Progress {
            rows: next.rows,
            row: p.row + 1,
            command: 0,
        };
    }
    p
}
