// The scheme card: count of types, of kinds, of rights, of commands, then 16 bytes a command.
ghost use Rattle.std.specs.Prelude.{◌≡◌, true, ◌+◌, ◌≤◌, length, take, drop, map, ℕ, ◌*◌, false, IfOk};
ghost use Rattle.model.specs.Words.{big_endian, groups, written_over};
ghost use Rattle.model.specs.Cards.{body, command_of, scheme_of, is_scheme_card, scheme_card_number};
ghost use Rattle.model.specs.Refusals.{number_given};
ghost use Rattle.schemes.specs.Loads.{scheme_in, loaded_from};
ghost use Rattle.cards.specs.Given.{GivenIf};

use crate::body_of;
use model::Command;
use model::refusal::Refusal;
use schemes::Loaded;

// The bytes of the four counts, before the first command.
const COUNTS: usize = 4;

// The bytes of a command.
const COMMAND_BYTES: usize = 16;

// The card is a scheme's: its commands fill it.
#[tactic(auto, unfolding(model::specs::Cards::is_scheme_card))]
pub fn is_scheme_card(card: &[u8]) -> bool
    ensures { result ≡ is_scheme_card card.now }
{
    let Some(body) = body_of(card) else {
        return false;
    };
    let Some((counts, commands)) = body.split_first_chunk::<COUNTS>() else {
        return false;
    };
    commands.len() == COMMAND_BYTES * usize::from(counts[3])
}

// The four counts and the bytes of the commands, if the card is a scheme's.
#[tactic(auto, unfolding(model::specs::Cards::is_scheme_card))]
fn scheme_body(card: &[u8]) -> Option<(&[u8; COUNTS], &[u8])>
    ensures { GivenIf (is_scheme_card card.now) result (λ p. (p.0.now ≡ take 4 (body card.now)) × (p.1.now ≡ drop 4 (body card.now))) }
{
    if !is_scheme_card(card) {
        return None;
    }
    body_of(card)?.split_first_chunk()
}

// The number that four bytes of the slice write.
fn word_on(bytes: &[u8], at: usize) -> u32
    requires { at + 4 ≤ length bytes.now }
    ensures { result ≡ big_endian (take 4 (drop at bytes.now)) }
{
    u32::from_be_bytes([bytes[at], bytes[at + 1], bytes[at + 2], bytes[at + 3]])
}

// The command that stands at a place of the slice.
#[tactic(auto, unfolding(model::specs::Cards::command_of))]
pub fn command_on(bytes: &[u8], at: usize) -> Command
    requires { at + 16 ≤ length bytes.now }
    ensures { result ≡ command_of (take 16 (drop at bytes.now)) }
{
    let bytes = &bytes[at..at + COMMAND_BYTES];
    Command {
        form: bytes[0],
        source: bytes[1],
        destination: bytes[2],
        kind: bytes[3],
        x: word_on(bytes, 4),
        y: word_on(bytes, 8),
        z: word_on(bytes, 12),
    }
}

// The commands that the bytes write, each in its place, as far as there are places.
#[tactic(auto, using(crate::proofs::Commands::loading_none))]
fn write_commands(bytes: &[u8], places: &mut [Command])
    ensures { (n : ℕ) → length bytes.now ≡ 16 * n → places.new ≡ written_over (take (length places.old) (map command_of (groups 16 n bytes.now))) places.old }
{
    let mut rest = bytes;
    for place in places.iter_mut() {
        let Some((first, after)) = rest.split_first_chunk::<COMMAND_BYTES>() else {
            return;
        };
        *place = command_on(first, 0);
        rest = after;
    }
}

// The scheme that the bytes hold, whatever its counts are, if they are a scheme's card. Commands past the 64th are counted and not kept.
#[tactic(auto, unfolding(schemes::specs::Loads::unloaded), using(crate::proofs::Commands::commands_fill, crate::proofs::Commands::loaded_as))]
pub fn scheme_on(card: &[u8]) -> Option<Loaded>
    ensures { GivenIf (is_scheme_card card.now) result (λ l. l ≡ loaded_from (scheme_of card.now)) }
{
    let ([types, kinds, rights, count], commands) = scheme_body(card)?;
    let mut l = Loaded::empty(
        usize::from(*types),
        usize::from(*kinds),
        usize::from(*rights),
    );
    l.count = usize::from(*count);
    write_commands(commands, &mut l.commands);
    Some(l)
}

// The scheme of a card, checked.
#[tactic(auto, using(crate::proofs::Commands::no_scheme, crate::proofs::Commands::loaded_number, crate::proofs::Commands::loaded_accepted))]
pub fn read_scheme(card: &[u8]) -> Result<Loaded, Refusal>
    ensures number { number_given result ≡ scheme_card_number card.now }
    ensures scheme { IfOk result (λ l. (l ≡ loaded_from (scheme_of card.now)) × (scheme_in l ≡ scheme_of card.now)) }
{
    let scheme = scheme_on(card).ok_or(Refusal::BadCard)?;
    scheme.check()?;
    Ok(scheme)
}
