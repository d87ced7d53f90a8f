// Standard input, as the two programs read it: no byte more than is wanted, and what is wanted is known by the bytes that were read. Any other reader
// is read alike.
#![tactic(auto)]

ghost use Rattle.std.specs.Prelude.{◌≡◌, ◌+◌, ◌≤◌, List, ℕ, length, take};
ghost use Rattle.std.specs.Counts.{IsPrefixLen};
ghost use Rattle.std.specs.Io.KnownBytes.{Consumes};

use std::io::Read;

// One read into the part, and how many bytes came: fewer than it has room for are no end of the input, none are the end, or a read that failed.
// Of a reader whose bytes are known, they are those that it had next, and it has lost no others.
pub fn read_some<R: Read>(input: &mut R, part: &mut [u8]) -> usize
    ensures count { IsPrefixLen result part.new }
    ensures bytes { Consumes (R.remaining input.old) (R.remaining input.new) (take result part.new) }
{
    input.read(part).unwrap_or(0)
}

// Reads until no more is wanted, or none comes; how many bytes came. They stand at the stream's beginning. Of an input whose bytes are known, they are
// those that it had first, and it has lost no others.
pub fn read_wanted<R: Read, W: Fn(&[u8]) -> usize>(
    input: &mut R,
    stream: &mut [u8],
    wanted: W,
) -> usize
    requires callable { W.IsAlwaysCallable wanted }
    requires fits { (read : _) (more : ℕ) → W.post wanted read more → length read.now ≤ length stream.old → length read.now + more ≤ length stream.old }
    ensures count { result ≤ length stream.new }
    ensures bytes { Consumes (R.remaining input.old) (R.remaining input.new) (take result stream.new) }
{
    let mut n = 0;
    loop {
        let more = wanted(&stream[..n]);
        if more == 0 {
            return n;
        }
        let got = read_some(input, &mut stream[n..n + more]);
        if got == 0 {
            return n;
        }
        n += got;
    }
}
