// The batch card: count of requests (two bytes), then for each a command, a source person, a destination person, a code length (any byte), the code.
ghost use Rattle.std.specs.Prelude.{◌≡◌, true, false, drop, option_map};
ghost use Rattle.model.specs.Cards.{body, request_count, is_batch_card};
ghost use Rattle.cards.specs.Entries.{next_of};
ghost use Rattle.cards.specs.Requests.{request_in};
ghost use Rattle.cards.specs.Given.{GivenIf};

use crate::entries::{entries_fill, split_entry};
use crate::{body_of, number};

// The most requests of a batch.
pub const MOST_REQUESTS: usize = 256;

// The bytes of the count, before the first request.
pub const COUNT_BYTES: usize = 2;

// The bytes of a request before its code.
pub const REQUEST_FIXED: usize = 4;

// The card is a batch's: it counts at most 256 requests, and they fill it.
#[tactic(auto, unfolding(model::specs::Cards::is_batch_card))]
pub fn is_batch_card(card: &[u8]) -> bool
    ensures { result ≡ is_batch_card card.now }
{
    let Some(body) = body_of(card) else {
        return false;
    };
    let Some((count, requests)) = body.split_first_chunk::<COUNT_BYTES>() else {
        return false;
    };
    let n = number(*count);
    n <= MOST_REQUESTS && entries_fill::<REQUEST_FIXED>(requests, n)
}

// The count of requests and the bytes of their entries, if the card is a batch's.
#[tactic(auto, unfolding(model::specs::Cards::is_batch_card))]
pub fn batch_body(card: &[u8]) -> Option<(usize, &[u8])>
    ensures { GivenIf (is_batch_card card.now) result (λ p. (p.0 ≡ request_count card.now) × (p.1.now ≡ drop 2 (body card.now))) }
{
    if !is_batch_card(card) {
        return None;
    }
    let (count, requests) = body_of(card)?.split_first_chunk::<COUNT_BYTES>()?;
    Some((number(*count), requests))
}

// A request, as the card or the caller's own hands it over.
#[derive(Clone, Copy)]
pub struct Request<'a> {
    pub command: usize,
    pub source: usize,
    pub destination: usize,
    pub code: &'a [u8],
}

// The request that begins the rest, and what follows it, if the request does not run past the end.
#[tactic(auto, using(crate::proofs::Places::next_past, crate::proofs::Places::next_whole, crate::proofs::Places::request_parts))]
pub fn next_request(rest: &[u8]) -> Option<(Request<'_>, &[u8])>
    ensures { option_map (λ p. (request_in p.0, p.1.now)) result ≡ next_of rest.now }
{
    let ([command, source, destination, _], code, after) = split_entry::<REQUEST_FIXED>(rest)?;
    let request = Request {
        command: usize::from(*command),
        source: usize::from(*source),
        destination: usize::from(*destination),
        code,
    };
    Some((request, after))
}
