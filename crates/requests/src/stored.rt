// A request that may be carried out, on the lent words of the store: a create writes the count and the whole place of the new design, another request
// two cells.
ghost use Rattle.std.specs.Prelude.{◌≡◌, [], ◌∷◌, ◌++◌, ◌+◌, ◌*◌, ◌≤◌, ◌<◌, length};
ghost use Rattle.model.specs.Sizes.{most_people, store_room};
ghost use Rattle.model.specs.Forms.{act, created};
ghost use Rattle.model.specs.Stores.{store_of, store_words};
ghost use Rattle.model.specs.Requests.{new_design, carried_out};
ghost use Rattle.model.specs.Outcomes.{request_from};
ghost use Rattle.requests.specs.Asking.{Allowed};

use cards::batch::Request;
use codes::pack;
use model::{Code, Command};
use rights::{after_gain, after_loss};
use stores::{DESIGN_WORDS, FIRST_CELL, Store};

// The 36 words of a new design: its kind, its code, Z in the source person's cell, and every other cell empty, whatever was there.
#[tactic(auto, unfolding(model::specs::Forms::created))]
fn write_design(words: &mut [u32], c: Command, code: Code, source: usize)
    requires { (length words.old ≡ 36) × (source < 32) }
    ensures { words.new ≡ c.kind ∷ code.a ∷ code.b ∷ code.c ∷ created c source most_people }
{
    words.fill(0);
    words[..FIRST_CELL].copy_from_slice(&[u32::from(c.kind), code.a, code.b, code.c]);
    words[FIRST_CELL + source] = c.z;
}

// A create: one design more, in the place behind the last.
#[tactic(auto, using(laws::proofs::Stores::store_length))]
fn create(c: Command, store: &mut [u32], source: usize, code: &[u8])
    requires { (store_room ≤ length store.old) × (length (store_of store.old) < 64) × (source < 32) }
    ensures { store.new ≡ store_words (store_of store.old ++ new_design c (request_from 0 source source code.now) ∷ []) store.old }
{
    let at = store[0] as usize * DESIGN_WORDS + 1;
    store[0] += 1;
    write_design(&mut store[at..at + DESIGN_WORDS], c, pack(code), source);
}

// A grant or an internal, on the cells of the design at a place: the source cell loses Y, then the destination cell gains Z.
#[tactic(auto, unfolding(model::specs::Forms::act, model::specs::Forms::lose, model::specs::Forms::gain))]
fn act(c: Command, store: &mut [u32], place: usize, source: usize, destination: usize)
    requires { (store_room ≤ length store.old) × (place < 64) × (source < 32) × (destination < 32) }
    ensures { store.new ≡ act c (5 + place * 36 + source) (5 + place * 36 + destination) store.old }
{
    let cells = place * DESIGN_WORDS + 1 + FIRST_CELL;
    let from = cells + source;
    let to = cells + destination;
    store[from] = after_loss(c, store[from]);
    store[to] = after_gain(c, store[to]);
}

// The request, carried out.
pub fn carry_out(c: Command, store: &mut [u32], q: &Request)
    requires { Allowed c store.old q.now.source q.now.destination q.now.code.now }
    ensures { store.new ≡ store_words (carried_out c (store_of store.old) (request_from 0 q.now.source q.now.destination q.now.code.now)) store.old }
{
    if c.is_create() {
        create(c, store, q.source, q.code);
    } else if let Some(place) = (Store { words: store }).place_of(q.code) {
        act(c, store, place, q.source, q.destination);
    }
}
