// The batch program: reads scheme, roster and batch cards from standard input, one after the other, and prints the text that the
// library gives for them. It reads, calls and writes; what it prints is proved of `batch_text`.
#![tactic(auto)]

ghost use Rattle.std.specs.Prelude.{◌≤◌, take};
ghost use Rattle.std.specs.Io.KnownBytes.{Consumes};

use input::read_wanted;
use std::io;
use std::io::Read;

// The most bytes of three cards, and of the text for them.
const MOST_STREAM: usize = 196608;

const MOST_TEXT: usize = 52554;

// Reads the cards, and no byte more; how many bytes they have. Of an input whose bytes are known, they are those that it had first, and it has lost
// no others.
#[tactic(auto, using(crate::proofs::Rooms::wanted_fits))]
fn read_cards<R: Read>(input: &mut R, stream: &mut [u8; MOST_STREAM]) -> usize
    ensures count { result ≤ MOST_STREAM }
    ensures bytes { Consumes (R.remaining input.old) (R.remaining input.new) (take result stream.new) }
{
    read_wanted(input, stream, ribalonga::batch_wanted)
}

fn main(rt: HostRuntime) -> io::Result<()> {
    let mut stream = [0u8; MOST_STREAM];
    let mut text = [0u8; MOST_TEXT];
    let n = read_cards(&mut rt.stdin(), &mut stream);
    let printed = ribalonga::batch_text(&stream[..n], &mut text);
    rt.write_all(&text[..printed.bytes])
}
