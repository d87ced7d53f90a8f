// Traps of scheme cards: what is a card (1), what a scheme is refused for (2), and that 1 comes before 2.
use model::Command;
use std::io;
use trials::asking::{ONE_CREATE, Scheme, line};
use trials::printing::text;
use trials::writing::ShortStream;

// Trap 16: the counts.
fn counts(rt: &impl Print) -> io::Result<()> {
    for (name, types, kinds, rights) in [
        ("T16 least counts: ", 1, 1, 1),
        ("T16 most counts: ", 8, 4, 32),
        ("T16 0 types: ", 0, 1, 1),
        ("T16 9 types: ", 9, 1, 1),
        ("T16 0 kinds: ", 1, 0, 1),
        ("T16 5 kinds: ", 1, 5, 1),
        ("T16 0 rights: ", 1, 1, 0),
        ("T16 33 rights: ", 1, 1, 33),
    ] {
        let stream = ShortStream::quiet(Scheme::new(types, kinds, rights, &[]));
        text(rt, name, &stream)?;
    }
    Ok(())
}

// A good create, then this command, in a scheme of two types, two kinds and so many rights.
fn commanded(rt: &impl Print, name: &str, rights: usize, c: Command) -> io::Result<()> {
    let commands = [line(1, 1, 1, 1, 0, 0, 7), c];
    let stream = ShortStream::quiet(Scheme::new(2, 2, rights, &commands));
    text(rt, name, &stream)
}

// Trap 16: what a command may be.
fn taken(rt: &impl Print) -> io::Result<()> {
    let all = 0xFFFFFFFF;
    for (name, rights, c) in [
        ("T16 create: ", 3, line(1, 1, 1, 1, 0, 0, 7)),
        ("T16 grant: ", 3, line(2, 1, 0, 1, 7, 7, 7)),
        ("T16 grant in a type: ", 3, line(2, 1, 1, 1, 7, 7, 7)),
        ("T16 internal: ", 3, line(3, 1, 1, 1, 7, 7, 7)),
        ("T16 31 rights: ", 31, line(2, 1, 0, 1, 0x7FFFFFFF, 0, 0)),
        ("T16 32 rights: ", 32, line(2, 1, 0, 1, all, all, all)),
    ] {
        commanded(rt, name, rights, c)?;
    }
    Ok(())
}

// Trap 16: one fault each in form, types and kind, and in X, Y and Z.
fn faults(rt: &impl Print) -> io::Result<()> {
    for (name, rights, c) in [
        ("T16 form 0: ", 3, line(0, 0, 0, 0, 0, 0, 1)),
        ("T16 form 4: ", 3, line(4, 0, 0, 0, 0, 0, 1)),
        ("T16 source 2: ", 3, line(2, 2, 0, 0, 1, 1, 1)),
        ("T16 destination 2: ", 3, line(2, 0, 2, 0, 1, 1, 1)),
        ("T16 kind 2: ", 3, line(2, 0, 0, 2, 1, 1, 1)),
        ("T16 create, two types: ", 3, line(1, 0, 1, 0, 0, 0, 1)),
        ("T16 internal, two types: ", 3, line(3, 0, 1, 0, 1, 1, 1)),
        ("T16 X above: ", 3, line(2, 0, 0, 0, 8, 1, 1)),
        ("T16 Y above: ", 3, line(2, 0, 0, 0, 1, 8, 1)),
        ("T16 Z above: ", 3, line(2, 0, 0, 0, 1, 1, 8)),
        ("T16 X above 31: ", 31, line(2, 0, 0, 0, 0x80000000, 0, 0)),
        ("T16 create with X: ", 3, line(1, 0, 0, 0, 1, 0, 1)),
        ("T16 create with Y: ", 3, line(1, 0, 0, 0, 0, 1, 1)),
    ] {
        commanded(rt, name, rights, c)?;
    }
    Ok(())
}

// A good stream of 35 bytes and a zero, in which one byte, at this place, is another; its first n bytes.
fn changed(rt: &impl Print, name: &str, at: usize, b: u8, n: usize) -> io::Result<()> {
    let mut stream = ShortStream::quiet(ONE_CREATE);
    stream.bytes(&[0]);
    stream.set(at, b);
    stream.truncate(n);
    text(rt, name, &stream)
}

// Trap 1: version, length and filling. Of a scheme card with one command the body length is 20.
fn headers(rt: &impl Print) -> io::Result<()> {
    for (name, at, b) in [
        ("T1 version 1: ", 0, 1),
        ("T1 version 0: ", 0, 0),
        ("T1 version 2: ", 0, 2),
        ("T1 length 3: ", 2, 3),
        ("T1 length 19: ", 2, 19),
        ("T1 length 20: ", 2, 20),
        ("T1 length 21: ", 2, 21),
        ("T1 length 276: ", 1, 1),
        ("T1 no command counted: ", 6, 0),
        ("T1 two commands counted: ", 6, 2),
        ("T2 255 counted, 1 there: ", 6, 255),
    ] {
        changed(rt, name, at, b, 35)?;
    }
    Ok(())
}

// Traps 1 and 15: a stream that ends early, one that goes on behind the last card, and the first refused card of several.
fn ends(rt: &impl Print) -> io::Result<()> {
    for (name, at, b, n) in [
        ("T1 no byte: ", 0, 1, 0),
        ("T1 two bytes: ", 0, 1, 2),
        ("T1 header alone: ", 0, 1, 3),
        ("T15 no roster: ", 0, 1, 23),
        ("T15 no batch: ", 0, 1, 30),
        ("T15 a byte less: ", 0, 1, 34),
        ("T15 a byte more: ", 0, 1, 36),
        ("T15 refused, and no more: ", 3, 0, 23),
        ("T15 refused roster, and no more: ", 27, 1, 30),
    ] {
        changed(rt, name, at, b, n)?;
    }
    Ok(())
}

// Trap 19: how many more bytes are wanted behind these. A wrong version or a length over 65,533 settles the answer.
fn wants(rt: &impl Print) -> io::Result<()> {
    let streams: [(&str, &[u8]); 6] = [
        ("T19 no byte: ", b""),
        ("T19 two bytes: ", b"\x01\x00"),
        ("T19 length 65,533: ", b"\x01\xFF\xFD"),
        ("T19 length 65,534: ", b"\x01\xFF\xFE"),
        ("T19 length 65,535: ", b"\x01\xFF\xFF"),
        ("T19 version 2: ", b"\x02"),
    ];
    for (name, bytes) in streams {
        println!(rt; "{name}{}", ribalonga::batch_wanted(bytes))?;
    }
    Ok(())
}

// Trap 12: a scheme may have no command.
fn no_command(rt: &impl Print) -> io::Result<()> {
    let stream = ShortStream::by(
        b"A",
        Scheme::new(1, 1, 1, &[]),
        1,
        |card| card.same(b"W", 1),
    );
    text(rt, "T12 no command:\n", &stream)
}

// Traps 12 and 17: a create with Z = 0 makes a design with an empty access list, which exists; X = 0 always fires; equal commands may stand twice.
fn nothing_asked(rt: &impl Print) -> io::Result<()> {
    let internal = line(3, 0, 0, 0, 0, 0, 2);
    let commands = [line(1, 0, 0, 0, 0, 0, 0), internal, internal];
    for (name, asked) in [("T12 X = 0:\n", [0, 1, 2]), ("T17:\n", [0, 0, 0])] {
        let stream = ShortStream::by(b"A", Scheme::new(1, 1, 2, &commands), 3, |card| {
            for c in asked {
                card.asks([c, 0, 0], b"W");
            }
        });
        text(rt, name, &stream)?;
    }
    Ok(())
}

// All of them.
pub fn schemes(rt: &impl Print) -> io::Result<()> {
    headers(rt)?;
    ends(rt)?;
    wants(rt)?;
    no_command(rt)?;
    nothing_asked(rt)?;
    counts(rt)?;
    taken(rt)?;
    faults(rt)
}
