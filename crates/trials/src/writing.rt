// The cards of the cases, written byte by byte into a stream with a fixed room, behind whose end nothing is written.
ghost use Rattle.std.specs.Prelude.{◌≡◌, [], take, slice_set};
ghost use Rattle.trials.specs.Rooms.{added};

use crate::asking::Scheme;
use arrayvec::ArrayVec;
use model::Command;
use std::convert::AsSlice;

// A code of so many letters A.
pub fn letters(n: u8) -> &'static [u8] {
    static LETTERS: [u8; 255] = [b'A'; 255];
    &LETTERS[..usize::from(n)]
}

// The code of the i-th person or design of many: a letter and a digit.
fn code_of(i: u8) -> [u8; 2] {
    [b'A' + i / 10, b'0' + i % 10]
}

// Ends a card: the length of its body is written into its header.
fn close(card: &mut [u8]) {
    if let [_, high, low, body @ ..] = card {
        [.., *high, *low] = body.len().to_be_bytes();
    }
}

// What the bytes of a case are written into, one behind the other: they are its `items`, which it lends as a slice.
pub trait Room: AsSlice<u8> + Drop {
    ghost use Rattle.std.specs.Prelude.{ℕ};

    // Up to how many bytes `write` adds.
    ghost most: { ℕ };

    // Room in which nothing is written.
    fn empty() -> Self
        ensures { Self.items result ≡ [] };

    // What was written, to be changed. What comes of a change is not said: no clause needs it.
    fn lent(&mut self) -> &mut [u8]
        ensures { result.now ≡ Self.items self.old };

    // Another byte at a place, if there is one.
    fn set(&mut self, at: usize, b: u8)
        ensures { Self.items self.new ≡ slice_set (Self.items self.old) at b };

    // These bytes more, if there is room for all of them, and else none.
    fn write(&mut self, more: &[u8])
        ensures { Self.items self.new ≡ added most more.now (Self.items self.old) };

    // The first n bytes alone.
    fn keep(&mut self, n: usize)
        ensures { Self.items self.new ≡ take n (Self.items self.old) };
}

impl<const BYTES: usize> Room for ArrayVec<u8, BYTES> {
    ghost most = { BYTES };

    fn empty() -> Self {
        ArrayVec::new()
    }

    fn lent(&mut self) -> &mut [u8] {
        self.as_mut_slice()
    }

    fn set(&mut self, at: usize, b: u8) {
        if let Some(place) = self.get_mut(at) {
            *place = b;
        }
    }

    fn write(&mut self, more: &[u8]) {
        let _ = self.try_extend_from_slice(more);
    }

    fn keep(&mut self, n: usize) {
        self.truncate(n);
    }
}

// The bytes of a case: its cards, one behind the other.
#[derive(Drop)]
pub struct Cards<R: Drop> {
    bytes: R,
}

// Cards of which one may have about the most bytes of a card.
pub type Stream = Cards<ArrayVec<u8, 66000>>;

// Cards as most cases have them: handed over by value, they cost what their room is.
pub type ShortStream = Cards<ArrayVec<u8, 4200>>;

impl<R: Room> Cards<R> {
    // A stream of no card.
    pub fn new() -> Self
        ensures { R.items result.bytes ≡ [] }
    {
        Cards { bytes: R::empty() }
    }

    // A scheme, the roster of one person of type 0 with this code, and a batch that counts so many requests.
    pub fn by<F: FnOnce(&mut Cards<R>)>(
        code: &[u8],
        scheme: Scheme,
        count: u16,
        requests: F,
    ) -> Self
        requires { F.IsAlwaysCallable requests }
    {
        let mut stream = Self::new();
        stream.scheme(scheme);
        stream.roster(1, |card| card.person(0, code));
        stream.batch(count, requests);
        stream
    }

    // A scheme, a roster that counts so many people, and a batch of none.
    pub fn rostered<F: FnOnce(&mut Cards<R>)>(scheme: Scheme, count: u8, people: F) -> Self
        requires { F.IsAlwaysCallable people }
    {
        let mut stream = Self::new();
        stream.scheme(scheme);
        stream.roster(count, people);
        stream.batch(0, |_| ());
        stream
    }

    // A scheme, the roster of A alone and a batch of none.
    pub fn quiet(scheme: Scheme) -> Self {
        Self::by(b"A", scheme, 0, |_| ())
    }

    // What was written.
    pub fn as_slice(&self) -> &[u8]
        ensures { result.now ≡ R.items self.now.bytes }
    {
        R::as_slice(&self.bytes)
    }

    // Changes the byte at a place, if there is one.
    pub fn set(&mut self, at: usize, b: u8)
        ensures { R.items self.new.bytes ≡ slice_set (R.items self.old.bytes) at b }
    {
        self.bytes.set(at, b);
    }

    // Keeps the first n bytes.
    pub fn truncate(&mut self, n: usize)
        ensures { R.items self.new.bytes ≡ take n (R.items self.old.bytes) }
    {
        self.bytes.keep(n);
    }

    // Bytes as they are, if there is room for all of them, and else none.
    pub fn bytes(&mut self, bytes: &[u8])
        ensures { R.items self.new.bytes ≡ added R.most bytes.now (R.items self.old.bytes) }
    {
        self.bytes.write(bytes);
    }

    // A count in one byte.
    fn count(&mut self, n: usize) {
        let [.., low] = n.to_be_bytes();
        self.bytes(&[low]);
    }

    // A code behind its length.
    fn code(&mut self, code: &[u8]) {
        self.count(code.len());
        self.bytes(code);
    }

    // A card: version 1, the length of its body, and the body that is written.
    fn card<F: FnOnce(&mut Cards<R>)>(&mut self, body: F)
        requires { F.IsAlwaysCallable body }
    {
        let from = self.as_slice().len();
        self.bytes(&[1, 0, 0]);
        body(self);
        if let Some(card) = self.bytes.lent().get_mut(from..) {
            close(card);
        }
    }

    // A command of a scheme card.
    fn command(&mut self, c: Command) {
        self.bytes(&[c.form, c.source, c.destination, c.kind]);
        for set in [c.x, c.y, c.z] {
            self.bytes(&set.to_be_bytes());
        }
    }

    // The card of a scheme.
    pub fn scheme(&mut self, scheme: Scheme) {
        self.card(|card| {
            card.count(scheme.types);
            card.count(scheme.kinds);
            card.count(scheme.rights);
            card.count(scheme.commands.len());
            for c in scheme.commands {
                card.command(*c);
            }
        });
    }

    // A roster card that counts so many people.
    pub fn roster<F: FnOnce(&mut Cards<R>)>(&mut self, count: u8, people: F)
        requires { F.IsAlwaysCallable people }
    {
        self.card(|card| {
            card.bytes(&[count]);
            people(card);
        });
    }

    // A person of a roster card: his type, and his code.
    pub fn person(&mut self, t: u8, code: &[u8]) {
        self.bytes(&[t]);
        self.code(code);
    }

    // So many people of type 0, each with a code of its own.
    pub fn people(&mut self, n: u8) {
        for i in 0..n {
            self.person(0, &code_of(i));
        }
    }

    // A batch card that counts so many requests.
    pub fn batch<F: FnOnce(&mut Cards<R>)>(&mut self, count: u16, requests: F)
        requires { F.IsAlwaysCallable requests }
    {
        self.card(|card| {
            card.bytes(&count.to_be_bytes());
            requests(card);
        });
    }

    // A request of a batch card: command, source and destination person, on this code.
    pub fn asks(&mut self, who: [u8; 3], code: &[u8]) {
        self.bytes(&who);
        self.code(code);
    }

    // So many requests for command 0 by person 0, each on a code of its own.
    pub fn creates(&mut self, n: u8) {
        for i in 0..n {
            self.asks([0, 0, 0], &code_of(i));
        }
    }

    // The same request, so many times: command 0 by person 0 on this code.
    pub fn same(&mut self, code: &[u8], n: u16) {
        for _ in 0..n {
            self.asks([0, 0, 0], code);
        }
    }
}

// The bytes of a batch card that is written on, with no request yet: the header, and the count.
const BEGUN_BATCH: usize = 5;

// The bytes of a case whose last card has about the most bytes of a card.
#[derive(Drop)]
pub struct LongCard {
    bytes: ArrayVec<u8, 66000>,
}

impl LongCard {
    // The cards of a stream, of which the last is a batch card with no request yet, and in it the same request, so many times, and then those of
    // another stream.
    pub fn of<R: Room, S: Room>(
        begun: &Cards<R>,
        code: &[u8],
        n: u16,
        requests: &Cards<S>,
    ) -> LongCard {
        let mut card = LongCard {
            bytes: ArrayVec::new(),
        };
        card.bytes(begun.as_slice());
        let mut request = ShortStream::new();
        request.asks([0, 0, 0], code);
        for _ in 0..n {
            card.bytes(request.as_slice());
        }
        card.bytes(requests.as_slice());
        let from = begun.as_slice().len().saturating_sub(BEGUN_BATCH);
        if let Some(batch) = card.bytes.as_mut_slice().get_mut(from..) {
            close(batch);
        }
        card
    }

    // What was written.
    pub fn as_slice(&self) -> &[u8] {
        self.bytes.as_slice()
    }

    // Bytes as they are, if there is room for all of them, and else none.
    fn bytes(&mut self, bytes: &[u8]) {
        let _ = self.bytes.try_extend_from_slice(bytes);
    }
}
