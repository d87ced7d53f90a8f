// Rows in a lent table, eight words each, one after the other: one is read, written into the free rest, and looked up.
ghost use Rattle.std.specs.Prelude.{◌≡◌, ◌*◌, ◌≤◌, length};
ghost use Rattle.model.specs.Sizes.{row_words};
ghost use Rattle.model.specs.Words.{written_over};

// How many words a row has: a cell for each type.
pub const ROW_WORDS: usize = 8;

// A stand-in state by value.
#[derive(Clone, Copy)]
pub struct Row {
    pub cells: [u32; ROW_WORDS],
}

// The rows that stand in the table, so many from its beginning on.
#[derive(Clone, Copy)]
pub struct Rows<'a> {
    pub table: &'a [u32],
    pub count: usize,
    ghost whole: { count * row_words ≤ length table.now },
}

impl<'a> Rows<'a> {
    ghost use Rattle.std.specs.Prelude.{◌<◌, [], get_or};
    ghost use Rattle.model.specs.Words.{any, same};
    ghost use Rattle.listing.specs.Tables.{rows_of};

    // The row at a place.
    pub fn row(&self, i: usize) -> Row
        requires { i < self.now.count }
        ensures { result.cells ≡ get_or (rows_of self.now) i [] }
    {
        let at = i * ROW_WORDS;
        let mut cells = [0; ROW_WORDS];
        cells.copy_from_slice(&self.table[at..at + ROW_WORDS]);
        Row { cells }
    }

    // Some row is this one: all eight words agree.
    pub fn has_row(&self, row: Row) -> bool
        ensures { result ≡ any (same row.cells) (rows_of self.now) }
    {
        // Stays: the words are compared by place, and a row is left by its label at the first difference.
        'rows: for i in 0..self.count {
            let at = i * ROW_WORDS;
            for k in 0..ROW_WORDS {
                if self.table[at + k] != row.cells[k] {
                    continue 'rows;
                }
            }
            return true;
        }
        false
    }
}

// A row is written at the beginning of the table's free rest.
#[tactic(auto, unfolding(model::specs::Words::written_over))]
pub fn write_row(rest: &mut [u32], row: Row)
    requires { row_words ≤ length rest.old }
    ensures { rest.new ≡ written_over row.cells rest.old }
{
    rest[..ROW_WORDS].copy_from_slice(&row.cells);
}
