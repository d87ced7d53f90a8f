// The verdict program: reads a scheme card from standard input, and prints the text that the library gives for it. It reads, calls and
// writes; what it prints is proved of `verdict_text`.
#![tactic(auto)]

ghost use Rattle.std.specs.Prelude.{◌≤◌, take};
ghost use Rattle.std.specs.Io.KnownBytes.{Consumes};

use input::read_wanted;
use std::io;
use std::io::Read;

// The most bytes of a card, the words of a table for the most states, and the most bytes of the text.
const MOST_STREAM: usize = 65536;

const TABLE_WORDS: usize = 16384;

const MOST_TEXT: usize = 7488;

// Reads the card, and no byte more; how many bytes it has. Of an input whose bytes are known, they are those that it had first, and it has lost
// no others.
#[tactic(auto, using(crate::proofs::Rooms::wanted_fits))]
fn read_card<R: Read>(input: &mut R, stream: &mut [u8; MOST_STREAM]) -> usize
    ensures count { result ≤ MOST_STREAM }
    ensures bytes { Consumes (R.remaining input.old) (R.remaining input.new) (take result stream.new) }
{
    read_wanted(input, stream, ribalonga::verdict_wanted)
}

fn main(rt: HostRuntime) -> io::Result<()> {
    let mut stream = [0u8; MOST_STREAM];
    let mut table = [0u32; TABLE_WORDS];
    let mut text = [0u8; MOST_TEXT];
    let n = read_card(&mut rt.stdin(), &mut stream);
    let printed = ribalonga::verdict_text(&stream[..n], &mut table, &mut text);
    rt.write_all(&text[..printed.bytes])
}
