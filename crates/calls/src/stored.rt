// Traps of what is handed over in lent words: the store's check (21), rooms (20), the order of the questions' refusals, what a refused batch leaves, and
// numbers near 2^64 (trap 21).
use mill::commands_a;
use std::io;
use trials::asking::{CREATE, Scheme, abc, asked, run_by_a, store_of};

// The largest number that can be handed over; one whose eightfold is 0 where products wrap, and one whose fourfold is.
const FAR: usize = 18446744073709551615;

const EIGHTH: usize = 2305843009213693952;

const QUARTER: usize = 4611686018427387904;

// May this person use this right on a code of one byte, in this store? So many of A, B and C, one kind, two rights, no command.
fn may(
    rt: &impl Print,
    name: &str,
    store: &[u32],
    [people, person, right]: [usize; 3],
    code: &[u8],
) -> io::Result<()> {
    let r = ribalonga::may_use(&[], 1, 1, 2, &abc(), people, store, person, right, code);
    println!(rt; "{name}{} {}", r.number, r.may)
}

// May A, who is alone, use right 0 on W, in a store of W whose cells are empty, with these words changed?
fn stored(rt: &impl Print, name: &str, changes: &[(usize, u32)]) -> io::Result<()> {
    let mut store = store_of([0, 0, 0]);
    for (at, word) in changes {
        if let Some(place) = store.get_mut(*at) {
            *place = *word;
        }
    }
    may(rt, name, &store, [1, 0, 0], b"W")
}

// Trap 13: the cells, of which word 5 is that of person 0, and 36 that of person 31; kind, code and count.
fn words(rt: &impl Print) -> io::Result<()> {
    for (name, at, word) in [
        ("T13 empty: ", 5, 0),
        ("T13 right 0: ", 5, 1),
        ("T13 right 1: ", 5, 2),
        ("T13 right 2 of two: ", 5, 4),
        ("T13 right 31 of two: ", 5, 0x80000000),
        ("T13 person 2 of one: ", 7, 1),
        ("T13 person 1 of one: ", 6, 1),
        ("T13 person 31 of one: ", 36, 1),
        ("T13 kind 1 of one: ", 1, 1),
        ("T13 code all zero: ", 2, 0),
        ("T13 code w: ", 2, 0x77000000),
        ("T13 zero in a code: ", 2, 0x57005700),
        ("T13 no design: ", 0, 0),
        ("65 designs in a store: ", 0, 65),
        ("2^32 - 1 designs: ", 0, 0xFFFFFFFF),
        ("T13 past the count: ", 38, 9),
    ] {
        stored(rt, name, &[(at, word)])?;
    }
    Ok(())
}

// A question's answers, and the order of its refusals: 3, 15, 7, 4, 12. A and B; A holds right 0 on W.
fn questions(rt: &impl Print) -> io::Result<()> {
    for (name, question, code) in [
        ("may A 0 W: ", [2, 0, 0], b"W"),
        ("may B 0 W: ", [2, 1, 0], b"W"),
        ("may A 1 W: ", [2, 0, 1], b"W"),
        ("may, 0 people: ", [0, 9, 9], b"-"),
        ("may, 33 people: ", [33, 9, 9], b"-"),
        ("may, right 2: ", [2, 9, 2], b"-"),
        ("may, person 2: ", [2, 2, 1], b"-"),
        ("may, code -: ", [2, 1, 1], b"-"),
        ("may, code V: ", [2, 1, 1], b"V"),
    ] {
        may(rt, name, &store_of([1, 0, 0]), question, code)?;
    }
    Ok(())
}

// Trap 21: numbers near 2^64 in such questions.
fn far_questions(rt: &impl Print) -> io::Result<()> {
    for (name, question) in [
        ("T21 people: ", [FAR, 0, 0]),
        ("T21 people, a quarter: ", [QUARTER, 0, 0]),
        ("T21 person: ", [2, FAR, 0]),
        ("T21 right: ", [2, 0, FAR]),
    ] {
        may(rt, name, &store_of([1, 0, 0]), question, b"W")?;
    }
    Ok(())
}

// The access list of a code of one byte: A, B and C, of whom A and C hold these rights on W. In roster order those whose cell isn't empty; the first two pairs,
// and what isn't written is 7, as it was found.
fn access(rt: &impl Print) -> io::Result<()> {
    for (name, code, rights) in [
        ("access W: ", b"W", [1, 0, 2]),
        ("access W, C alone: ", b"W", [0, 0, 2]),
        ("access W, nobody: ", b"W", [0, 0, 0]),
        ("access -: ", b"-", [1, 0, 2]),
        ("access V: ", b"V", [1, 0, 2]),
    ] {
        let store = store_of(rights);
        let mut list = [7; 64];
        let r = ribalonga::access_list(&[], 1, 1, 2, &abc(), 3, &store, code, &mut list);
        let [a, b, c, d, ..] = list;
        println!(rt; "{name}{} {} {a} {b} {c} {d}", r.number, r.people)?;
    }
    Ok(())
}

// Trap 6: 20 for each buffer, before every other number. A roster of so many words and so many people, a store and a list of so many words.
fn rooms(rt: &impl Print) -> io::Result<()> {
    for (name, words, people, designs, pairs) in [
        ("T6 enough room: ", 128, 1, 2305, 64),
        ("T6 no people: ", 128, 0, 2305, 64),
        ("T6 roster of 127 words: ", 127, 0, 2305, 64),
        ("T6 store of 2,304 words: ", 128, 0, 2304, 64),
        ("T6 list of 63 words: ", 128, 0, 2305, 63),
    ] {
        let roster = abc();
        let store = store_of([0, 0, 0]);
        let mut list = [0; 64];
        let (Some(roster), Some(store), Some(list)) = (
            roster.get(..words),
            store.get(..designs),
            list.get_mut(..pairs),
        ) else {
            return Ok(());
        };
        let r = ribalonga::access_list(&[], 1, 1, 2, roster, people, store, b"W", list);
        println!(rt; "{name}{}", r.number)?;
    }
    Ok(())
}

// Trap 6: 20 for a text's buffer too. A text of so many bytes, for a stream of none.
fn text_rooms(rt: &impl Print) -> io::Result<()> {
    for (name, n) in [
        ("T6 text of 52,554 bytes: ", 52554),
        ("T6 text of 52,553 bytes: ", 52553),
    ] {
        let mut text = [0; 52554];
        let Some(text) = text.get_mut(..n) else {
            return Ok(());
        };
        let printed = ribalonga::batch_text(b"", text);
        println!(rt; "{name}{} {}", printed.number, printed.bytes)?;
    }
    Ok(())
}

// Trap 14: a batch is read through first. One request on W; the same and half another; that with room for 255 answers. Each is run by A alone on an empty store:
// number, requests, done; designs, and the first two answers, which were 7.
fn batches(rt: &impl Print) -> io::Result<()> {
    let whole = b"\x01\x00\x07\x00\x01\x00\x00\x00\x01W";
    let cut = b"\x01\x00\x09\x00\x02\x00\x00\x00\x01W\x00\x00";
    let cards: [(&str, &[u8], usize); 3] = [
        ("T14 whole: ", whole, 256),
        ("T14 cut: ", cut, 256),
        ("T6 255 answers: ", cut, 255),
    ];
    for (name, card, n) in cards {
        let mut store = [0; 2305];
        let mut answers = [7; 256];
        let r = run_by_a(card, &mut store, answers.get_mut(..n).unwrap_or(&mut []));
        let [first, second, ..] = answers;
        println!(rt;
            "{name}{} {} {} {} {first} {second}",
            r.number, r.requests, r.done, store[0]
        )?;
    }
    Ok(())
}

// Trap 21: a create's request by A alone on an empty store, with numbers near 2^64; the number, and how many designs there are then.
fn far_requests(rt: &impl Print) -> io::Result<()> {
    for (name, command, source, destination) in [
        ("T21 near: ", 0, 0, 0),
        ("T21 command: ", FAR, 0, 0),
        ("T21 source: ", 0, FAR, 0),
        ("T21 destination: ", 0, 0, FAR),
    ] {
        let mut store = [0; 2305];
        let number = ribalonga::request(
            &[CREATE],
            1,
            1,
            1,
            &abc(),
            1,
            &mut store,
            command,
            source,
            destination,
            b"W",
        );
        println!(rt; "{name}{number} {}", store[0])?;
    }
    Ok(())
}

// Trap 21: numbers near 2^64 in counts. The number of the verdict of A's create with these counts and no budget.
fn far_counts(rt: &impl Print) -> io::Result<()> {
    for (name, types, kinds, rights) in [
        ("T21 counts of A: ", 3, 1, 8),
        ("T21 types: ", FAR, 1, 8),
        ("T21 kinds: ", 3, FAR, 8),
        ("T21 rights: ", 3, 1, FAR),
    ] {
        let commands = commands_a();
        let scheme = Scheme::new(types, kinds, rights, &commands);
        let v = scheme.verdict([0, 0, 7, 0], &mut [0; 88]);
        println!(rt; "{name}{}", v.number)?;
    }
    Ok(())
}

// Trap 21: numbers near 2^64 in verdicts.
fn far_verdicts(rt: &impl Print) -> io::Result<()> {
    for (name, question) in [
        ("T21 budget: ", [0, 0, 7, FAR]),
        ("T21 budget, an eighth: ", [0, 0, 7, EIGHTH]),
        ("T21 start: ", [FAR, 0, 7, 11]),
        ("T21 type: ", [0, FAR, 7, 11]),
        ("T21 right asked: ", [0, 0, FAR, 11]),
    ] {
        asked(rt, name, Scheme::of_mill(&commands_a()), question)?;
    }
    Ok(())
}

// All of them.
pub fn stores(rt: &impl Print) -> io::Result<()> {
    words(rt)?;
    // A second design, of this code; its words begin at 37.
    stored(rt, "T13 two codes: ", &[(0, 2), (38, 0x56000000)])?;
    stored(rt, "T13 one code: ", &[(0, 2), (38, 0x57000000)])?;
    questions(rt)?;
    access(rt)?;
    rooms(rt)?;
    text_rooms(rt)?;
    batches(rt)?;
    far_requests(rt)?;
    far_questions(rt)?;
    far_counts(rt)?;
    far_verdicts(rt)
}
