// What a case prints: its name, then what came out. A name ends with its own space or newline.
use crate::writing::{Cards, Room};
use model::Verdict;
use std::io;

// A verdict: number, states, held, state, command.
pub fn verdict(rt: &impl Print, name: &str, v: Verdict) -> io::Result<()> {
    println!(rt;
        "{name}{} {} {} {} {}",
        v.number, v.states, v.held, v.state, v.command
    )
}

// The name, and lines as they are.
fn say(rt: &impl Print, name: &str, lines: &[u8]) -> io::Result<()> {
    print!(rt; "{name}")?;
    rt.write_all(lines)
}

// What the batch program prints for a stream, as it stands in a text.
fn batch_lines<'a>(stream: &[u8], text: &'a mut [u8]) -> &'a [u8] {
    let printed = ribalonga::batch_text(stream, text);
    text.get(..printed.bytes).unwrap_or(&[])
}

// What the batch program prints for a stream.
pub fn text<R: Room>(rt: &impl Print, name: &str, stream: &Cards<R>) -> io::Result<()> {
    say(rt, name, batch_lines(stream.as_slice(), &mut [0; 52554]))
}

// The last line of what the batch program prints for a stream's bytes.
pub fn text_end(rt: &impl Print, name: &str, stream: &[u8]) -> io::Result<()> {
    let mut text = [0; 52554];
    let lines = batch_lines(stream, &mut text);
    let last = lines.split_inclusive(|b| *b == b'\n').last();
    say(rt, name, last.unwrap_or(&[]))
}

// What the verdict program prints for a stream.
pub fn verdict_lines<R: Room>(rt: &impl Print, name: &str, stream: &Cards<R>) -> io::Result<()> {
    let mut text = [0; 7488];
    let printed = ribalonga::verdict_text(stream.as_slice(), &mut [0; 16384], &mut text);
    say(rt, name, text.get(..printed.bytes).unwrap_or(&[]))
}
