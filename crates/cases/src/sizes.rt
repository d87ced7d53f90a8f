// The sizes: the most that is taken, and one more.
use std::io;
use trials::asking::{CREATE, ONE_CREATE, Scheme, run_by_a};
use trials::printing::{text, text_end};
use trials::writing::{LongCard, ShortStream, letters};

// Schemes of so many equal creates.
fn commands(rt: &impl Print) -> io::Result<()> {
    for (name, n) in [
        ("0 commands: ", 0),
        ("64 commands: ", 64),
        ("65 commands: ", 65),
        ("255 commands: ", 255),
    ] {
        let commands = [CREATE; 255];
        let commands = commands.get(..n).unwrap_or(&[]);
        let stream = ShortStream::quiet(Scheme::new(1, 1, 1, commands));
        text(rt, name, &stream)?;
    }
    Ok(())
}

// Rosters of so many people.
fn people(rt: &impl Print) -> io::Result<()> {
    for (name, n) in [
        ("0 people: ", 0),
        ("32 people: ", 32),
        ("33 people: ", 33),
        ("255 people: ", 255),
    ] {
        let stream = ShortStream::rostered(ONE_CREATE, n, |card| card.people(n));
        text(rt, name, &stream)?;
    }
    Ok(())
}

// Batches by A alone of so many requests, all the same create.
fn requests(rt: &impl Print) -> io::Result<()> {
    for (name, n) in [
        ("batch of none: ", 0),
        ("batch of 256: ", 256),
        ("batch of 257: ", 257),
    ] {
        let stream = ShortStream::by(b"A", ONE_CREATE, n, |card| card.same(b"W", n));
        text_end(rt, name, stream.as_slice())?;
    }
    Ok(())
}

// Batches of so many creates, each of another design.
fn designs(rt: &impl Print) -> io::Result<()> {
    for (name, n) in [("64 designs: ", 64), ("65 designs: ", 65)] {
        let stream = ShortStream::by(b"A", ONE_CREATE, u16::from(n), |card| card.creates(n));
        text_end(rt, name, stream.as_slice())?;
    }
    Ok(())
}

// Batch cards of 252 requests with codes of 255 bytes, one with a good code, and one with a code of n bytes: 65,282 bytes with the header, and those n.
fn bytes(rt: &impl Print) -> io::Result<()> {
    for (name, n) in [
        ("card of 65,535 bytes: ", 253),
        ("card of 65,536 bytes: ", 254),
        ("card of 65,537 bytes: ", 255),
    ] {
        let begun = ShortStream::by(b"A", ONE_CREATE, 254, |_| ());
        let mut last = ShortStream::new();
        last.asks([0, 0, 0], b"W");
        last.asks([0, 0, 0], letters(n));
        let card = LongCard::of(&begun, letters(255), 252, &last);
        text_end(rt, name, card.as_slice())?;
    }
    Ok(())
}

// Trap 5: with 64 designs, a code that exists is 10 and a new one 11. A card of 64 creates, one of a code that exists and one of a new code, on an empty store.
fn full_store(rt: &impl Print) -> io::Result<()> {
    let mut card = ShortStream::new();
    card.batch(66, |card| {
        card.creates(64);
        card.asks([0, 0, 0], b"A0");
        card.asks([0, 0, 0], b"W");
    });
    let mut answers = [0; 256];
    let r = run_by_a(card.as_slice(), &mut [0; 2305], &mut answers);
    println!(rt; "T5 batch: {} {} {}", r.number, r.requests, r.done)?;
    println!(rt; "T5 64th: {}", answers[63])?;
    println!(rt; "T5 exists: {}", answers[64])?;
    println!(rt; "T5 65th: {}", answers[65])
}

// All of them.
pub fn sizes(rt: &impl Print) -> io::Result<()> {
    commands(rt)?;
    people(rt)?;
    requests(rt)?;
    designs(rt)?;
    bytes(rt)?;
    full_store(rt)
}
