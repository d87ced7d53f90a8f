// The entries of a roster or a batch: some fixed bytes, of which the last is the code length, then the code.
ghost use Rattle.std.specs.Prelude.{◌≡◌, ◌≤◌, ◌++◌, take, drop};
ghost use Rattle.model.specs.Cards.{entry_size, entries_fill};
ghost use Rattle.cards.specs.Entries.{is_whole};
ghost use Rattle.cards.specs.Given.{GivenIf};

// The fixed bytes and the code of the entry that begins the rest, and what follows it, if the entry does not run past the end.
#[tactic(auto, using(crate::proofs::Filling::short_entry, crate::proofs::Filling::past_entry))]
pub fn split_entry<const FIXED: usize>(rest: &[u8]) -> Option<(&[u8; FIXED], &[u8], &[u8])>
    requires { 1 ≤ FIXED }
    ensures { GivenIf (is_whole FIXED rest.now) result (λ p. (p.0.now ++ p.1.now ≡ take (entry_size FIXED rest.now) rest.now) × (p.2.now ≡ drop (entry_size FIXED rest.now) rest.now)) }
{
    let (fixed, rest) = rest.split_first_chunk::<FIXED>()?;
    let (code, after) = rest.split_at_checked(usize::from(fixed[FIXED - 1]))?;
    Some((fixed, code, after))
}

// So many entries fill the rest exactly.
#[tactic(auto, using(crate::proofs::Filling::fill_next))]
pub fn entries_fill<const FIXED: usize>(rest: &[u8], n: usize) -> bool
    requires { (1 ≤ FIXED) × (FIXED ≤ 4) }
    ensures { result ≡ entries_fill FIXED n rest.now }
{
    let mut left = rest;
    for _ in 0..n {
        let Some((_, _, after)) = split_entry::<FIXED>(left) else {
            return false;
        };
        left = after;
    }
    left.is_empty()
}
