// Traps of roster and batch cards: what fills them (1), that 3 comes before 4 and 4 before 5 over the whole roster, and the order of a request's refusals.
use std::io;
use trials::asking::{CREATE, ONE_CREATE, Scheme, line};
use trials::printing::text;
use trials::writing::{ShortStream, letters};

// Traps 2 and 3: a scheme of two types and one person, whose code is n letters.
fn person_alone(rt: &impl Print) -> io::Result<()> {
    for (name, t, n) in [
        ("T2 code of none: ", 0, 0),
        ("T2 code of 12: ", 0, 12),
        ("T2 code of 13: ", 0, 13),
        ("T2 code of 255: ", 0, 255),
        ("T3 type 1: ", 1, 1),
        ("T3 type 2: ", 2, 1),
    ] {
        let scheme = Scheme::new(2, 1, 1, &[]);
        let stream = ShortStream::rostered(scheme, 1, |card| card.person(t, letters(n)));
        text(rt, name, &stream)?;
    }
    Ok(())
}

// A scheme of two types and three people, each by type and a code of one byte. Trap 3; and trap 2: people who don't fill the card are 1, whatever else is wrong.
fn three_people(rt: &impl Print) -> io::Result<()> {
    let wrong = [(0, b'A'), (0, b'A'), (2, b'-')];
    for (name, count, people) in [
        ("T3 three codes: ", 3, [(0, b'A'), (0, b'B'), (1, b'C')]),
        ("T3 lower case: ", 3, [(0, b'A'), (0, b'B'), (0, b'a')]),
        ("T3 one code: ", 3, [(0, b'A'), (0, b'B'), (1, b'A')]),
        ("T3 4, then 3: ", 3, [(0, b'-'), (0, b'B'), (2, b'C')]),
        ("T3 5, then 3: ", 3, [(0, b'A'), (0, b'A'), (2, b'C')]),
        ("T3 5, then 4: ", 3, [(0, b'A'), (0, b'A'), (0, b'-')]),
        ("T2 0 people counted: ", 0, wrong),
        ("T2 2 people counted: ", 2, wrong),
        ("T2 4 people counted: ", 4, wrong),
        ("T2 33 people counted: ", 33, wrong),
    ] {
        let stream = ShortStream::rostered(Scheme::new(2, 1, 1, &[]), count, |card| {
            for (t, code) in people {
                card.person(t, &[code]);
            }
        });
        text(rt, name, &stream)?;
    }
    Ok(())
}

// Trap 2: a code of any length is read, and answered 4 where it is none or too long; a batch that isn't filled is 1, and nothing of it is done (trap 14).
// Each batch counts so many requests and has one, a create on a code of n letters; and two more bytes or none.
fn requests(rt: &impl Print) -> io::Result<()> {
    for (name, count, n, more) in [
        ("T2 request on none:\n", 1, 0, false),
        ("T2 request on 12:\n", 1, 12, false),
        ("T2 request on 13:\n", 1, 13, false),
        ("T2 request on 255:\n", 1, 255, false),
        ("T2 0 requests counted: ", 0, 1, false),
        ("T2 2 requests counted: ", 2, 1, false),
        ("T2 65,535 requests counted: ", 65535, 1, false),
        ("T2 two bytes more: ", 1, 1, true),
        ("T14 cut short: ", 2, 1, true),
    ] {
        let stream = ShortStream::by(b"A", ONE_CREATE, count, |card| {
            card.asks([0, 0, 0], letters(n));
            if more {
                card.bytes(&[0, 0]);
            }
        });
        text(rt, name, &stream)?;
    }
    Ok(())
}

// Each request with what the later numbers would refuse too: command, source and destination, and the code's byte.
const REQUESTS: [([u8; 3], u8); 17] = [
    // 6: no such command.
    ([5, 9, 9], b'-'),
    // 7: no such destination; no such source.
    ([0, 0, 3], b'-'),
    ([0, 3, 2], b'-'),
    // 8: the destination's type; the source's.
    ([0, 0, 2], b'-'),
    ([2, 2, 2], b'-'),
    // 9: two people for a create; for an internal.
    ([0, 0, 1], b'-'),
    ([1, 0, 1], b'-'),
    // 4: a grant on a bad code.
    ([2, 0, 2], b'-'),
    // 0: a create.
    ([0, 0, 0], b'W'),
    // 10: again by another; of the other kind.
    ([0, 1, 1], b'W'),
    ([3, 0, 0], b'W'),
    // 12: no such design, for a command of either kind.
    ([1, 0, 0], b'V'),
    ([4, 0, 0], b'V'),
    // 13: the other kind, and X isn't held either.
    ([4, 0, 0], b'W'),
    // 14: X isn't held.
    ([1, 0, 0], b'W'),
    // 0: a grant; 14: the same by one who holds nothing.
    ([2, 0, 2], b'W'),
    ([2, 1, 2], b'W'),
];

// Trap 4: the order of a request's refusals. Two types, two kinds, two rights: a create, an internal and a grant of kind 0, a create and an internal of kind 1.
// A and B of type 0, C of type 1.
fn in_order(rt: &impl Print) -> io::Result<()> {
    let commands = [
        CREATE,
        line(3, 0, 0, 0, 2, 0, 1),
        line(2, 0, 1, 0, 1, 0, 1),
        line(1, 0, 0, 1, 0, 0, 1),
        line(3, 0, 0, 1, 2, 0, 2),
    ];
    let mut stream = ShortStream::new();
    stream.scheme(Scheme::new(2, 2, 2, &commands));
    stream.roster(3, |card| {
        card.person(0, b"A");
        card.person(0, b"B");
        card.person(1, b"C");
    });
    stream.batch(17, |card| {
        for (who, code) in REQUESTS {
            card.asks(who, &[code]);
        }
    });
    text(rt, "T4:\n", &stream)
}

// All of them.
pub fn rosters(rt: &impl Print) -> io::Result<()> {
    person_alone(rt)?;
    three_people(rt)?;
    requests(rt)?;
    in_order(rt)
}
