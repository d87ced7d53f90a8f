// What the cases ask of the library: the schemes, people and stores that they hand over, and each call of it in one place.
use crate::printing::verdict;
use model::{BatchRun, Command, Verdict};
use std::io;

// A command by its numbers, in the order of a card. Stays: rows of seven numbers of one type would be cast.
pub fn line(form: u8, source: u8, destination: u8, kind: u8, x: u32, y: u32, z: u32) -> Command {
    Command {
        form,
        source,
        destination,
        kind,
        x,
        y,
        z,
    }
}

// A create of kind 0 by type 0 with Z = 01. Stays written out: a constant calls no function.
pub const CREATE: Command = Command {
    form: 1,
    source: 0,
    destination: 0,
    kind: 0,
    x: 0,
    y: 0,
    z: 1,
};

// A scheme: how many types, kinds and rights, and its commands.
#[derive(Clone, Copy)]
pub struct Scheme<'a> {
    pub types: usize,
    pub kinds: usize,
    pub rights: usize,
    pub commands: &'a [Command],
}

impl<'a> Scheme<'a> {
    // A scheme of these counts and commands.
    pub fn new(types: usize, kinds: usize, rights: usize, commands: &'a [Command]) -> Scheme<'a> {
        Scheme {
            types,
            kinds,
            rights,
            commands,
        }
    }

    // A scheme of the mill: three types, one kind and eight rights.
    pub fn of_mill(commands: &'a [Command]) -> Scheme<'a> {
        Scheme::new(3, 1, 8, commands)
    }

    // The verdict of a create command: the question is the command, a type, a right and a budget.
    pub fn verdict(
        &self,
        [command, person_type, right, budget]: [usize; 4],
        table: &mut [u32],
    ) -> Verdict {
        ribalonga::verdict_of_create(
            self.commands,
            self.types,
            self.kinds,
            self.rights,
            command,
            person_type,
            right,
            budget,
            table,
        )
    }
}

// A scheme of one create with Z = 01.
pub const ONE_CREATE: Scheme<'static> = Scheme {
    types: 1,
    kinds: 1,
    rights: 1,
    commands: &[CREATE],
};

// The commands of scheme C: those of A with Y = 06 in command 2.
pub fn commands_c() -> [Command; 7] {
    let mut commands = mill::commands_a();
    commands[2].y = 0x06;
    commands
}

// People in a roster's words: the type of each, and his code.
pub fn roster_of(people: &[(u32, [u8; 4])]) -> [u32; 128] {
    let mut roster = [0; 128];
    for (words, (t, code)) in roster.chunks_exact_mut(4).zip(people) {
        words[0] = *t;
        words[1] = u32::from_be_bytes(*code);
    }
    roster
}

// A, B and C of type 0.
pub fn abc() -> [u32; 128] {
    roster_of(&[(0, *b"A\0\0\0"), (0, *b"B\0\0\0"), (0, *b"C\0\0\0")])
}

// The design W of kind 0, on which the first people hold these rights, in a store's words.
pub fn store_of(rights: [u32; 3]) -> [u32; 2305] {
    let mut store = [0; 2305];
    store[0] = 1;
    store[2] = 0x57000000;
    store[5..8].copy_from_slice(&rights);
    store
}

// The verdict of a create command, asked by command, type, right and budget, with a table of so many words.
pub fn asked_in(
    rt: &impl Print,
    name: &str,
    scheme: Scheme,
    question: [usize; 4],
    words: usize,
) -> io::Result<()> {
    let mut table = [0; 16392];
    let Some(table) = table.get_mut(..words) else {
        return Ok(());
    };
    verdict(rt, name, scheme.verdict(question, table))
}

// The verdict of a create command, with room for a budget of 2,049.
pub fn asked(rt: &impl Print, name: &str, scheme: Scheme, question: [usize; 4]) -> io::Result<()> {
    asked_in(rt, name, scheme, question, 16392)
}

// A batch card, run by A alone with one create: what it gives, and what it leaves in the store and the answers.
pub fn run_by_a(card: &[u8], store: &mut [u32], answers: &mut [u8]) -> BatchRun {
    ribalonga::run_batch(&[CREATE], 1, 1, 1, &abc(), 1, store, card, answers)
}
