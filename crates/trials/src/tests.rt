// Streams of more bytes than most cases have: what is written behind them, and what the programs print of them.
use crate::asking::{ONE_CREATE, Scheme, commands_c};
use crate::printing::{text, text_end, verdict_lines};
use crate::writing::{LongCard, ShortStream, Stream, letters};
use std::fmt::Display;
use std::io;
use std::io::ErrorKind;

// Takes what is printed, and breaks off at these lines: so a test sees that they come.
#[derive(Clone, Copy)]
struct BreaksAt<'a> {
    lines: &'a [u8],
}

impl<'a> Print for BreaksAt<'a> {
    fn print<D: Display + Drop>(&self, _: D) -> io::Result<()> {
        Ok(())
    }

    fn println<D: Display + Drop>(&self, _: D) -> io::Result<()> {
        Ok(())
    }

    fn write_all(&self, bytes: &[u8]) -> io::Result<()> {
        if bytes == self.lines {
            Err(ErrorKind::WriteZero.into())
        } else {
            Ok(())
        }
    }
}

// The scheme of one create, one person, and a batch of about the most bytes of a card, whose last code has so many letters.
fn long_batch(n: u8) -> Stream {
    Stream::by(b"A", ONE_CREATE, 254, |card| {
        card.same(letters(255), 252);
        card.asks([0, 0, 0], b"W");
        card.asks([0, 0, 0], letters(n));
    })
}

#[test]
fn a_card_has_the_most_bytes(rt: HostRuntime) {
    for (n, bytes) in [(253, 65565), (254, 65566), (255, 65567)] {
        let begun = ShortStream::by(b"A", ONE_CREATE, 254, |_| ());
        let mut last = ShortStream::new();
        last.asks([0, 0, 0], b"W");
        last.asks([0, 0, 0], letters(n));
        let card = LongCard::of(&begun, letters(255), 252, &last);
        assert_eq!(rt; long_batch(n).as_slice().len(), bytes);
        assert!(rt; long_batch(n).as_slice() == card.as_slice(), "{n} letters");
    }
}

#[test]
fn cards_are_written_behind_many_bytes(rt: HostRuntime) {
    let mut stream = Stream::new();
    stream.bytes(&[7; 60000]);
    stream.roster(2, |card| {
        card.person(0, b"A");
        card.people(1);
    });
    stream.batch(3, |card| {
        card.asks([1, 2, 3], b"W");
        card.creates(1);
        card.same(b"X", 1);
    });
    let cards = [
        1, 0, 8, 2, 0, 1, b'A', 0, 2, b'A', b'0', 1, 0, 18, 0, 3, 1, 2, 3, 1, b'W', 0, 0, 0, 2,
        b'A', b'0', 0, 0, 0, 1, b'X',
    ];
    assert!(rt;
        stream
            .as_slice()
            .split_at_checked(60000)
            .is_some_and(|(_, behind)| behind == cards.as_slice())
    );
    stream.set(60000, 9);
    stream.truncate(60001);
    assert!(rt;
        stream
            .as_slice()
            .split_at_checked(60000)
            .is_some_and(|(_, behind)| behind == [9].as_slice())
    );
}

#[test]
fn a_scheme_has_any_commands(rt: HostRuntime) {
    let commands = [commands_c()[0]; 300];
    let scheme = Scheme::of_mill(&commands);
    let mut stream = Stream::new();
    stream.scheme(scheme);
    assert_eq!(rt; stream.as_slice().len(), 4807);
    stream.roster(1, |card| card.person(0, b"A"));
    stream.batch(0, |_| ());
    let rostered = Stream::rostered(scheme, 1, |card| card.person(0, b"A"));
    assert!(rt; rostered.as_slice() == stream.as_slice());
    assert!(rt; Stream::quiet(scheme).as_slice() == stream.as_slice());
}

#[test]
fn long_streams_are_printed(rt: HostRuntime) {
    let stream = long_batch(253);
    let mut lines = [0; 52554];
    let printed = ribalonga::batch_text(stream.as_slice(), &mut lines);
    assert!(rt; lines.starts_with(b"R 0 4\nR 1 4\n"));
    let whole = BreaksAt {
        lines: lines.get(..printed.bytes).unwrap_or(&[]),
    };
    assert!(rt; text(&whole, "long batch", &stream).is_err());
    let last = BreaksAt {
        lines: b"E 254 1\n",
    };
    assert!(rt; text_end(&last, "long batch", stream.as_slice()).is_err());
    let listed = BreaksAt {
        lines: b"C 0 0 1\nT 0 00000001\n",
    };
    assert!(rt; verdict_lines(&listed, "long batch", &stream).is_err());
}
