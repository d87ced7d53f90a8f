// The codes of people and designs: what a code may hold, and its three words in lent memory. Meets the definitions of
// `model`'s Codes under the same names. Inner functions: whatever reads a card or a roster calls them, and none is
// offered outside.
#![tactic(auto)]

mod classes;

ghost use Rattle.std.specs.Prelude.{◌≡◌, ◌++◌, ◌+◌, ◌≤◌, ◌&&◌, eqb, length, take, drop};
ghost use Rattle.model.specs.Words.{all, digits, big_endian};
ghost use Rattle.model.specs.Codes.{is_code_byte, is_hyphen, spelled, packed, unpadded, unpacked};

use classes::Class;
use model::Code;

// A code can hold the byte.
#[tactic(auto, unfolding(model::specs::Codes::is_code_byte))]
fn is_code_byte(byte: u8) -> bool
    ensures { result ≡ is_code_byte byte }
{
    Class::from(byte) != Class::Other
}

// The byte is the hyphen.
#[tactic(auto, unfolding(model::specs::Codes::is_hyphen))]
fn is_hyphen(byte: u8) -> bool
    ensures { result ≡ is_hyphen byte }
{
    Class::from(byte) == Class::Hyphen
}

// A code can hold every byte of the slice.
fn all_code_bytes(code: &[u8]) -> bool
    ensures { result ≡ all is_code_byte code.now }
{
    code.iter().all(|byte| is_code_byte(*byte))
}

// The most bytes of a code.
const MOST_CODE: usize = 12;

// The bytes are a code: one to twelve, all of them a code's, and no hyphen at an end.
#[tactic(auto, unfolding(model::specs::Codes::spelled))]
pub fn spelled(code: &[u8]) -> bool
    ensures { result ≡ spelled code.now }
{
    let (Some(first), Some(last)) = (code.first(), code.last()) else {
        return false;
    };
    code.len() <= MOST_CODE && all_code_bytes(code) && !is_hyphen(*first) && !is_hyphen(*last)
}

// The word that starts at a place of a code's twelve bytes.
fn word_at(bytes: &[u8; 12], at: usize) -> u32
    requires { at + 4 ≤ 12 }
    ensures { result ≡ big_endian (take 4 (drop at bytes.now)) }
{
    u32::from_be_bytes([bytes[at], bytes[at + 1], bytes[at + 2], bytes[at + 3]])
}

// A code as three words. What stands past its twelfth byte is not in them.
pub fn pack(code: &[u8]) -> Code
    ensures { result ≡ packed code.now }
{
    let mut bytes = [0; 12];
    let len = code.len().min(MOST_CODE);
    bytes[..len].copy_from_slice(&code[..len]);
    Code {
        a: word_at(&bytes, 0),
        b: word_at(&bytes, 4),
        c: word_at(&bytes, 8),
    }
}

// Two codes are the same: all three words agree.
pub fn same_code(v: Code, w: Code) -> bool
    ensures { result ≡ (eqb v.a w.a && eqb v.b w.b && eqb v.c w.c) }
{
    v == w
}

// The twelve bytes of three words.
pub fn bytes_of(w: Code) -> [u8; 12]
    ensures { result ≡ digits 256 4 w.a ++ digits 256 4 w.b ++ digits 256 4 w.c }
{
    let [a0, a1, a2, a3] = w.a.to_be_bytes();
    let [b0, b1, b2, b3] = w.b.to_be_bytes();
    let [c0, c1, c2, c3] = w.c.to_be_bytes();
    [a0, a1, a2, a3, b0, b1, b2, b3, c0, c1, c2, c3]
}

// What is left of the bytes without the zeros at their end.
pub fn unpadded(bytes: &[u8]) -> &[u8]
    ensures { result.now ≡ unpadded bytes.now }
{
    match bytes.iter().rposition(|byte| *byte != 0) {
        Some(last) => &bytes[..=last],
        None => &[],
    }
}

// Three words hold a code that is spelled right.
#[tactic(auto, unfolding(model::specs::Codes::unpacked))]
pub fn spelled_words(w: Code) -> bool
    ensures { result ≡ spelled (unpacked w) }
{
    spelled(unpadded(&bytes_of(w)))
}
