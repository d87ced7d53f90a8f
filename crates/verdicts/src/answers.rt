// The verdict from one start: 16, 17, 18, 19 and 0, in this order, and what the listed rows say.
ghost use Rattle.std.specs.Prelude.{◌≡◌, ◌<◌};
ghost use Rattle.model.specs.Sizes.{most_rights};
ghost use Rattle.model.specs.Kinds.{both};
ghost use Rattle.model.specs.Answers.{judged};
ghost use Rattle.model.specs.Verdicts.{reported};
ghost use Rattle.schemes.specs.Loads.{listed};
ghost use Rattle.listing.specs.Tables.{rows_of};
ghost use Rattle.verdicts.specs.Asking.{start_by, question_by, looked_up, Askable, Answered};

use crate::{Question, Start};
use kinds::sets::{first_not_normal, sets_of};
use listing::rows::Rows;
use listing::search::search;
use model::Command;
use model::answers::Judgement;
pub use model::answers::only;
use schemes::Loaded;

// 0: what the listed rows say of the right.
fn reported(rows: &Rows, q: &Question) -> Judgement
    requires { q.now.right < most_rights }
    ensures { judged result ≡ reported (question_by q.now) (rows_of rows.now) }
{
    Judgement::Listed {
        states: rows.count,
        held: rows.first_holding(q.person_type, q.right),
    }
}

// 19 where one of the listed rows has a duplicate step, by the set of the rights that are both propagation and deletable; else 0.
fn looked_up(commands: &[Command], kind: usize, set: u32, rows: &Rows, q: &Question) -> Judgement
    requires { (q.now.right < most_rights) × (set ≡ both commands.now kind) }
    ensures { judged result ≡ looked_up commands.now kind (question_by q.now) (rows_of rows.now) }
{
    let Some(state) = rows.first_duplicate(kind, set, commands) else {
        return reported(rows, q);
    };
    let command = rows.row(state).first_duplicate(kind, set, commands);
    let states = rows.count;
    Judgement::Duplicate {
        states,
        state,
        command: command.unwrap_or(0),
    }
}

// The verdict from a start. On 16 and 17 nothing is listed, and the table is left.
pub fn verdict_from(l: &Loaded, start: Start, q: &Question, table: &mut [u32]) -> Judgement
    requires { Askable l.now q.now table.old }
    ensures { Answered (listed l.now) (start_by start) (question_by q.now) table.old (judged result) table.new }
{
    let commands = l.kept();
    let sets = sets_of(commands, start.kind);
    if let Some(command) = first_not_normal(commands, start.kind, sets.propagation) {
        return Judgement::NotNormal { command };
    }
    if start.overlap {
        return Judgement::Overlap;
    }
    let count = search(l, start.kind, start.row, q.budget, table).rows;
    if q.budget < count {
        return Judgement::PastBudget { budget: q.budget };
    }
    let rows = Rows {
        table: &*table,
        count,
    };
    looked_up(commands, start.kind, sets.both(), &rows, q)
}
