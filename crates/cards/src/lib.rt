// The readers of the three cards: what is a card at all, what fills one, and the records that stand on it. Meets the definitions of `model`'s Cards,
// part by part, as the clauses say. Each answers for a slice of any length. Inner functions: the public calls go through them, and none is offered
// outside.
#![tactic(auto)]

pub mod batch;
pub mod entries;
pub mod roster;
pub mod scheme;

ghost use Rattle.std.specs.Prelude.{◌≡◌, true, false};
ghost use Rattle.model.specs.Words.{big_endian};
ghost use Rattle.model.specs.Cards.{body, is_card};
ghost use Rattle.cards.specs.Given.{GivenIf};

// The version byte that a card begins with.
pub const VERSION: u8 = 1;

// The bytes before the body: the version, and two bytes of body length.
pub const HEADER: usize = 3;

// The most bytes of a card, its header included.
pub const MOST_CARD: usize = 65536;

// The number that two bytes write.
pub fn number(bytes: [u8; 2]) -> usize
    ensures { result ≡ big_endian bytes }
{
    usize::from(u16::from_be_bytes(bytes))
}

// The body of the bytes, if they are a card: its version, and its length as it is written.
#[tactic(auto, unfolding(model::specs::Cards::is_card))]
pub fn body_of(card: &[u8]) -> Option<&[u8]>
    ensures { GivenIf (is_card card.now) result (λ b. b.now ≡ body card.now) }
{
    let [VERSION, high, low, body @ ..] = card else {
        return None;
    };
    if card.len() > MOST_CARD || body.len() != number([*high, *low]) {
        return None;
    }
    Some(body)
}
