// The text of either program whose card is refused.
ghost use Rattle.std.specs.Prelude.{◌≤◌, length};
ghost use Rattle.model.specs.Lines.{line_x};
ghost use Rattle.lines.specs.Lines.{Put};

use lines::{line_x, put};

// The number of a refused card, alone: at most four figures.
#[tactic(auto, using(crate::proofs::Lengths::refusal_short))]
pub fn print_refusal(text: &mut [u8], number: u8) -> usize
    requires { 7 ≤ length text.old }
    ensures { Put (line_x number) 0 text.old result text.new }
{
    put(text, 0, line_x(usize::from(number)))
}
