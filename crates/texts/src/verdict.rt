// The verdict program's text: the scheme card is read, and the listing of each of its creates is told. A refused card's number is printed alone.
ghost use Rattle.std.specs.Prelude.{◌≡◌, ◌+◌, ◌*◌, ◌≤◌, ◌<◌, length};
ghost use Rattle.model.specs.Sizes.{most_commands, most_states, row_words};
ghost use Rattle.model.specs.Schemes.{scheme_number};
ghost use Rattle.model.specs.Verdicts.{start_of_create, table_after};
ghost use Rattle.model.specs.Answers.{text_given};
ghost use Rattle.model.specs.Lines.{whole_question, lines_c, create_lines, table_after_creates, verdict_text_room, VerdictTextOutcome};
ghost use Rattle.schemes.specs.Loads.{listed, scheme_in};
ghost use Rattle.listing.specs.Tables.{rows_of};
ghost use Rattle.verdicts.specs.Asking.{Askable};
ghost use Rattle.lines.specs.Lines.{Put};
ghost use Rattle.texts.specs.Creates.{types_text};

use crate::refusal::print_refusal;
use cards::scheme::read_scheme;
use lines::{line_c, line_t, put};
use listing::rows::{ROW_WORDS, Rows};
use model::answers::Judgement;
use model::refusal::Refusal;
use model::{Command, Verdict};
use schemes::{Loaded, MOST_COMMANDS, MOST_TYPES};
use streams::split_card;
use verdicts::Question;
use verdicts::calls::MOST_STATES;
use verdicts::starts::from_create;

// What is asked of each create: what is told of the answer is the same for every type and right.
const EVERY_STATE: Question = Question {
    person_type: 0,
    right: 0,
    budget: MOST_STATES,
};

// The most bytes that the sizes allow: for each create a line of its own, and one for each type.
const ROOM: usize = MOST_COMMANDS * (13 + MOST_TYPES * 13);

// The words of a table for the most states.
const TABLE_WORDS: usize = ROW_WORDS * MOST_STATES;

// All rights that the rows hold at each type, a line each.
#[tactic(auto, using(crate::proofs::Growing::none_put, crate::proofs::Creates::types_whole))]
fn put_types(text: &mut [u8], at: usize, rows: &Rows, types: usize) -> usize
    requires { (types ≤ row_words) × (at + length (types_text (rows_of rows.now) types) ≤ length text.old) }
    ensures { Put (types_text (rows_of rows.now) types) at text.old result text.new }
{
    let mut end = at;
    for t in 0..types {
        end = put(text, end, line_t(t, rows.union_at(t)));
    }
    end
}

// A create: its number and its verdict's, the states, and with 0 what each type can ever hold.
fn put_create(
    l: &Loaded,
    k: usize,
    c: Command,
    table: &mut [u32],
    text: &mut [u8],
    at: usize,
) -> usize
    requires { (k < most_commands) × (l.now.types ≤ row_words) × Askable l.now EVERY_STATE table.old × (at + length (lines_c (scheme_in l.now) k c) ≤ length text.old) }
    ensures lines { Put (lines_c (scheme_in l.now) k c) at text.old result text.new }
    ensures table { table.new ≡ table_after (listed l.now) (start_of_create c) whole_question table.old }
{
    let judgement = from_create(l, c, &EVERY_STATE, table);
    let verdict = Verdict::from(judgement);
    let end = put(
        text,
        at,
        line_c(k, usize::from(verdict.number), verdict.states),
    );
    match judgement {
        Judgement::Listed { states, .. } => {
            let rows = Rows {
                table: &*table,
                count: states,
            };
            put_types(text, end, &rows, l.types)
        },
        _ => end,
    }
}

// All creates of a scheme, in their order.
#[tactic(auto, unfolding(model::specs::Lines::create_lines, model::specs::Lines::table_after_creates), using(crate::proofs::Growing::none_put, crate::proofs::Creates::creates_room))]
fn put_creates(l: &Loaded, table: &mut [u32], text: &mut [u8]) -> usize
    requires { (scheme_number (scheme_in l.now) ≡ 0) × (l.now.count ≤ most_commands) × (row_words * most_states ≤ length table.old) × (verdict_text_room ≤ length text.old) }
    ensures lines { Put (create_lines (scheme_in l.now) 0 (listed l.now)) 0 text.old result text.new }
    ensures table { table.new ≡ table_after_creates (listed l.now) (listed l.now) table.old }
{
    let mut end = 0;
    for (k, c) in l.kept().iter().enumerate() {
        if c.is_create() {
            end = put_create(l, k, *c, table, text, end);
        }
    }
    end
}

// The whole text of the verdict program for the bytes that it read.
pub fn verdict_text(bytes: &[u8], table: &mut [u32], text: &mut [u8]) -> Result<usize, Refusal>
    ensures { VerdictTextOutcome bytes.now table.old text.old (text_given result) table.new text.new }
{
    if text.len() < ROOM {
        return Err(Refusal::NoRoom);
    }
    if table.len() < TABLE_WORDS {
        return Err(Refusal::OutOfRange);
    }
    let (card, _) = split_card(bytes);
    Ok(match read_scheme(card) {
        Ok(l) => put_creates(&l, table, text),
        Err(refusal) => print_refusal(text, refusal.number()),
    })
}
