// The lines that the two programs print, each built by value and then put into the lent text. Meets the definitions of `model`'s
// Lines. Inner functions: none is offered outside.
#![tactic(auto)]

mod line;

ghost use Rattle.std.specs.Prelude.{◌≡◌, ◌+◌, ◌<◌, ◌≤◌, List, [], ◌∷◌, ◌++◌, length, map};
ghost use Rattle.model.specs.Words.{digits};
ghost use Rattle.model.specs.Codes.{unpacked};
ghost use Rattle.model.specs.Lines.{digit_byte, decimal, hexadecimal, line, line_x};
ghost use Rattle.lines.specs.Lines.{text_of, Put};

use codes::{bytes_of, unpadded};
pub use line::Line;
use line::MOST_LINE;
use model::Code;

// The byte of a digit: 0 to 9, A to F.
#[tactic(auto, unfolding(model::specs::Lines::digit_byte))]
fn digit_byte(d: u8) -> u8
    requires { d < 16 }
    ensures { result ≡ digit_byte d }
{
    if d < 10 { b'0' + d } else { b'A' + (d - 10) }
}

impl Line {
    // A line that begins with its letter.
    fn new(letter: u8) -> Line
        ensures text { text_of result ≡ letter ∷ [] }
        ensures room { result.len ≡ 1 }
    {
        let mut bytes = [0; MOST_LINE];
        bytes[0] = letter;
        Line { bytes, len: 1 }
    }

    // One byte more.
    fn push(mut self, byte: u8) -> Line
        requires { self.len < 32 }
        ensures text { text_of result ≡ text_of self ++ byte ∷ [] }
        ensures room { result.len ≡ self.len + 1 }
    {
        let at = self.len;
        self.bytes[at] = byte;
        self.len = at + 1;
        self
    }

    // All of these bytes more.
    fn extend(mut self, bytes: &[u8]) -> Line
        requires { self.len + length bytes.now ≤ 32 }
        ensures text { text_of result ≡ text_of self ++ bytes.now }
        ensures room { result.len ≡ self.len + length bytes.now }
    {
        let at = self.len;
        let end = at + bytes.len();
        self.bytes[at..end].copy_from_slice(bytes);
        self.len = end;
        self
    }

    // The last digits of a number in a base, the highest first.
    // Stays by hand: no clause says when a `write!` succeeds, and the library's digits without it are decimal alone.
    #[tactic(auto, using(crate::proofs::Figures::digits_more))]
    fn digits(self, base: usize, width: u32, n: usize) -> Line
        requires { (0 < base) × (base ≤ 16) × (self.len + width ≤ 32) }
        ensures text { text_of result ≡ text_of self ++ map digit_byte (digits base width n) }
        ensures room { result.len ≡ self.len + width }
    {
        if width == 0 {
            return self;
        }
        let last = digit_byte((n % base) as u8);
        self.digits(base, width - 1, n / base).push(last)
    }

    // One word more, after a space: a number in decimal, of which none that is printed has more than four digits.
    fn number(self, n: usize) -> Line
        requires { (n < 10000) × (self.len + 5 ≤ 32) }
        ensures text { text_of result ≡ text_of self ++ 32 ∷ decimal n }
        ensures room { result.len ≤ self.len + 5 }
    {
        // also 0 has a digit
        let width = n.max(1).ilog10() + 1;
        self.push(b' ').digits(10, width, n)
    }

    // One word more: rights as eight hexadecimal digits.
    #[tactic(auto, unfolding(model::specs::Lines::hexadecimal))]
    fn rights(self, rights: u32) -> Line
        requires { self.len + 9 ≤ 32 }
        ensures text { text_of result ≡ text_of self ++ 32 ∷ hexadecimal rights }
        ensures room { result.len ≤ self.len + 9 }
    {
        self.push(b' ').digits(16, 8, rights as usize)
    }

    // One word more: a code, from its three words.
    fn code(self, w: Code) -> Line
        requires { self.len + 13 ≤ 32 }
        ensures text { text_of result ≡ text_of self ++ 32 ∷ unpacked w }
        ensures room { result.len ≤ self.len + 13 }
    {
        self.push(b' ').extend(unpadded(&bytes_of(w)))
    }

    // The end of the line.
    fn end(self) -> Line
        requires { self.len < 32 }
        ensures { text_of result ≡ text_of self ++ 10 ∷ [] }
    {
        self.push(b'\n')
    }
}

// The number of a refused card.
#[tactic(auto, unfolding(model::specs::Lines::line, model::specs::Lines::line_x))]
pub fn line_x(number: usize) -> Line
    requires { number < 10000 }
    ensures { text_of result ≡ line_x number }
{
    Line::new(b'X').number(number).end()
}

// A request and its answer.
#[tactic(auto, unfolding(model::specs::Lines::line))]
pub fn line_r(request: usize, number: usize) -> Line
    requires { (request < 10000) × (number < 10000) }
    ensures { text_of result ≡ line "R" (decimal request ∷ decimal number ∷ []) }
{
    Line::new(b'R').number(request).number(number).end()
}

// A design and its kind.
#[tactic(auto, unfolding(model::specs::Lines::line))]
pub fn line_d(code: Code, kind: usize) -> Line
    requires { kind < 10000 }
    ensures { text_of result ≡ line "D" (unpacked code ∷ decimal kind ∷ []) }
{
    Line::new(b'D').code(code).number(kind).end()
}

// A person and the rights in the cell.
#[tactic(auto, unfolding(model::specs::Lines::line))]
pub fn line_p(code: Code, rights: u32) -> Line
    ensures { text_of result ≡ line "P" (unpacked code ∷ hexadecimal rights ∷ []) }
{
    Line::new(b'P').code(code).rights(rights).end()
}

// Requests, and those answered 0.
#[tactic(auto, unfolding(model::specs::Lines::line))]
pub fn line_e(requests: usize, done: usize) -> Line
    requires { (requests < 10000) × (done < 10000) }
    ensures { text_of result ≡ line "E" (decimal requests ∷ decimal done ∷ []) }
{
    Line::new(b'E').number(requests).number(done).end()
}

// A create command, its answer and the states listed.
#[tactic(auto, unfolding(model::specs::Lines::line))]
pub fn line_c(command: usize, number: usize, states: usize) -> Line
    requires { (command < 10000) × (number < 10000) × (states < 10000) }
    ensures { text_of result ≡ line "C" (decimal command ∷ decimal number ∷ decimal states ∷ []) }
{
    Line::new(b'C')
        .number(command)
        .number(number)
        .number(states)
        .end()
}

// A type, and all rights ever listed at it.
#[tactic(auto, unfolding(model::specs::Lines::line))]
pub fn line_t(t: usize, rights: u32) -> Line
    requires { t < 10000 }
    ensures { text_of result ≡ line "T" (decimal t ∷ hexadecimal rights ∷ []) }
{
    Line::new(b'T').number(t).rights(rights).end()
}

// The line, put into the text at a place; and where it ends.
#[tactic(auto, using(crate::proofs::Texts::put_copied))]
pub fn put(text: &mut [u8], at: usize, line: Line) -> usize
    requires { at + length (text_of line) ≤ length text.old }
    ensures { Put (text_of line) at text.old result text.new }
{
    let end = at + line.len;
    text[at..end].copy_from_slice(&line.bytes[..line.len]);
    end
}
