// The verdict from a create command, and from a stored design.
ghost use Rattle.model.specs.Rosters.{roster_of};
ghost use Rattle.model.specs.Stores.{design_of};
ghost use Rattle.model.specs.Verdicts.{start_of_create, start_of_design};
ghost use Rattle.model.specs.Answers.{judged};
ghost use Rattle.schemes.specs.Loads.{listed};
ghost use Rattle.verdicts.specs.Asking.{question_by, Askable, Answered};

use crate::answers::verdict_from;
use crate::{Question, Start};
use kinds::overlap::overlaps;
use kinds::sets::sets_of;
use kinds::starts::{row_of_create, row_of_design};
use model::Command;
use model::answers::Judgement;
use rosters::Roster;
use schemes::Loaded;
use stores::Design;

// From a create command: no two people overlap in it.
pub fn from_create(l: &Loaded, c: Command, q: &Question, table: &mut [u32]) -> Judgement
    requires { Askable l.now q.now table.old }
    ensures { Answered (listed l.now) (start_of_create c) (question_by q.now) table.old (judged result) table.new }
{
    let start = Start {
        kind: usize::from(c.kind),
        row: row_of_create(c),
        overlap: false,
    };
    verdict_from(l, start, q, table)
}

// From a stored design, with the roster that its cells are of.
pub fn from_design(
    l: &Loaded,
    roster: &Roster,
    design: &Design,
    q: &Question,
    table: &mut [u32],
) -> Judgement
    requires { Askable l.now q.now table.old }
    ensures { Answered (listed l.now) (start_of_design (listed l.now) (roster_of roster.now.people roster.now.words.now) (design_of design.now.words.now)) (question_by q.now) table.old (judged result) table.new }
{
    let kind = design.kind();
    let set = sets_of(l.kept(), kind).both();
    let start = Start {
        kind,
        row: row_of_design(roster, design.cells()),
        overlap: overlaps(set, roster, design.cells()),
    };
    verdict_from(l, start, q, table)
}
