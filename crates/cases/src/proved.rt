// P1 to P12, the cases that are proved of the definitions.
use mill::{commands_a, commands_b};
use model::Command;
use std::io;
use trials::asking::{CREATE, Scheme, asked, commands_c, line, roster_of, store_of};
use trials::printing::{text, verdict};
use trials::writing::ShortStream;

// P1 to P6: start 0; type, right and budget as the proved cases have them.
fn create_verdicts(rt: &impl Print) -> io::Result<()> {
    for (name, commands, question) in [
        ("P1: ", commands_a(), [0, 0, 7, 11]),
        ("P2: ", commands_a(), [0, 0, 7, 10]),
        ("P3: ", commands_a(), [0, 1, 7, 11]),
        ("P4: ", commands_b(), [0, 0, 7, 21]),
        ("P5: ", commands_b(), [0, 0, 7, 20]),
        ("P6: ", commands_c(), [0, 0, 7, 11]),
    ] {
        asked(rt, name, Scheme::of_mill(&commands), question)?;
    }
    Ok(())
}

// The verdict of a stored design, by a code of one byte, asked for the designer ANN: there is W, on which the lab's L1 holds right 4, and its L2 these rights.
fn design_asked(
    rt: &impl Print,
    name: &str,
    commands: &[Command],
    second: u32,
    code: u8,
    right: usize,
    budget: usize,
) -> io::Result<()> {
    let people = [
        (0, *b"ANN\0"),
        (1, *b"L1\0\0"),
        (1, *b"L2\0\0"),
        (2, *b"LIC\0"),
    ];
    let v = ribalonga::verdict_of_design(
        commands,
        3,
        1,
        8,
        &roster_of(&people),
        4,
        &store_of([0, 0x10, second]),
        &[code],
        0,
        right,
        budget,
        &mut [0; 168],
    );
    verdict(rt, name, v)
}

// P7, and trap 10: 15 comes before 4 and 12, these before 16, 16 before 17, and 17 before 18.
fn design_verdicts(rt: &impl Print) -> io::Result<()> {
    for (name, commands, second, code, right, budget) in [
        ("P7: ", commands_b(), 0x10, b'W', 7, 21),
        ("T10 16 before 17: ", commands_c(), 0x10, b'W', 7, 21),
        ("T10 17 before 18: ", commands_b(), 0x10, b'W', 7, 1),
        ("T10 18: ", commands_b(), 0, b'W', 7, 1),
        ("T10 0: ", commands_b(), 0, b'W', 5, 2),
        ("T10 15 before 4: ", commands_c(), 0x10, b'-', 8, 21),
        ("T10 4 before 16: ", commands_c(), 0x10, b'-', 7, 21),
        ("T10 12 before 16: ", commands_c(), 0x10, b'V', 7, 21),
    ] {
        design_asked(rt, name, &commands, second, code, right, budget)?;
    }
    Ok(())
}

// P8: cell 03 by command 1 of A.
fn internal(rt: &impl Print) -> io::Result<()> {
    let commands = commands_a();
    let stream = ShortStream::by(b"ANN", Scheme::of_mill(&commands), 2, |card| {
        card.asks([0, 0, 0], b"W-104");
        card.asks([1, 0, 0], b"W-104");
    });
    text(rt, "P8:\n", &stream)
}

// P9 to P11, and what else the spelling says: creates by ANN, each on a code that ends the case's name. In the second half is one hyphen or byte that no code has.
fn spellings(rt: &impl Print) -> io::Result<()> {
    let commands = commands_a();
    let scheme = Scheme::of_mill(&commands);
    for (name, code) in [
        ("P9 ", "w-104"),
        ("P10 ", "ABCDEFGHIJKL"),
        ("P10 ", "ABCDEFGHIJKLM"),
        ("P11 ", "-"),
        ("", ""),
        ("", "AZ-09"),
        ("", "A--Z"),
        ("", "-A"),
        ("", "A-"),
        ("", "A B"),
        ("", "/"),
        ("", ":"),
        ("", "@"),
        ("", "["),
    ] {
        let stream = ShortStream::by(b"ANN", scheme, 1, |card| {
            card.asks([0, 0, 0], code.as_bytes());
        });
        print!(rt; "{name}code {code}")?;
        text(rt, ":\n", &stream)?;
    }
    Ok(())
}

// P12: a grant from a person to itself, X = Y = Z = 01, cell 01.
fn to_itself(rt: &impl Print) -> io::Result<()> {
    let commands = [CREATE, line(2, 0, 0, 0, 1, 1, 1)];
    let stream = ShortStream::by(b"A", Scheme::new(1, 1, 1, &commands), 2, |card| {
        card.asks([0, 0, 0], b"W");
        card.asks([1, 0, 0], b"W");
    });
    text(rt, "P12:\n", &stream)
}

// All of them.
pub fn proved(rt: &impl Print) -> io::Result<()> {
    create_verdicts(rt)?;
    design_verdicts(rt)?;
    internal(rt)?;
    spellings(rt)?;
    to_itself(rt)
}
