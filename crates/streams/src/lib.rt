// The cards in the stream that a program reads: where each ends, and how many more bytes are wanted. Meets the definitions of `model`'s Lines.
// Inner functions: the public calls go through them, and none is offered outside.
#![tactic(auto)]

ghost use Rattle.std.specs.Prelude.{◌≡◌, leb, length};
ghost use Rattle.model.specs.Lines.{card_length, card_of, after_card, card_wanted, BatchWantedOutcome, VerdictWantedOutcome};
ghost use Rattle.cards.specs.Given.{GivenIf};
ghost use Rattle.streams.specs.Ends.{CardEnd};

use cards::scheme::read_scheme;
use cards::{HEADER, MOST_CARD, VERSION, number};
use readers::checked_people;

// How long the card that begins the stream is, as its header says, if that is there.
fn card_length(stream: &[u8]) -> Option<usize>
    ensures { GivenIf (leb 3 (length stream.now)) result (λ n. n ≡ card_length stream.now) }
{
    let [_, high, low, ..] = stream else {
        return None;
    };
    Some(HEADER + number([*high, *low]))
}

// How many more bytes the card that begins the stream wants: none once it is whole, or refused by its version or length already.
#[tactic(auto, unfolding(model::specs::Lines::card_wanted))]
pub fn card_wanted(stream: &[u8]) -> usize
    ensures { result ≡ card_wanted stream.now }
{
    if stream.first().is_some_and(|version| *version != VERSION) {
        return 0;
    }
    match card_length(stream) {
        None => HEADER - stream.len(),
        Some(whole) if whole > MOST_CARD => 0,
        Some(whole) => whole.saturating_sub(stream.len()),
    }
}

// Where the card that begins the stream ends: as its own header says, and at the stream's end if that comes first.
pub fn card_end(stream: &[u8]) -> usize
    ensures { CardEnd stream.now result }
{
    let most = stream.len();
    card_length(stream).unwrap_or(most).min(most)
}

// The card that begins the stream, and what follows it.
pub fn split_card(stream: &[u8]) -> (&[u8], &[u8])
    ensures card { result.0.now ≡ card_of stream.now }
    ensures after { result.1.now ≡ after_card stream.now }
{
    stream.split_at(card_end(stream))
}

// How many more bytes the verdict program must read.
#[tactic(auto, unfolding(model::specs::Lines::verdict_wanted))]
pub fn verdict_wanted(stream: &[u8]) -> usize
    ensures { VerdictWantedOutcome stream.now result }
{
    card_wanted(stream)
}

// How many more bytes the batch program must read: the next card is wanted only once the one before it is whole and not refused.
#[tactic(auto, unfolding(model::specs::Lines::batch_wanted), using(laws::proofs::Refusals::refusal_not_zero))]
pub fn batch_wanted(stream: &[u8]) -> usize
    ensures { BatchWantedOutcome stream.now result }
{
    let wanted = card_wanted(stream);
    if wanted != 0 {
        return wanted;
    }
    let (card, rest) = split_card(stream);
    let Ok(scheme) = read_scheme(card) else {
        return 0;
    };
    let more = card_wanted(rest);
    if more != 0 {
        return more;
    }
    let (card, last) = split_card(rest);
    if checked_people(&scheme, card).is_err() {
        return 0;
    }
    card_wanted(last)
}
