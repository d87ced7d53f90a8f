// The ground: the plain records that travel between the calls, and in specs/ every rule of the build as a definition.
// The code that is here says what the records stand for: why a call is refused, the three forms of a command, and the answers that are made of
// what a call found. Every other crate is proved against these definitions.
#![tactic(auto)]

pub mod answers;
pub mod form;
pub mod refusal;

// One command of a scheme, sixteen bytes as on its card.
#[repr(C)]
#[derive(Clone, Copy)]
pub struct Command {
    pub form: u8,
    pub source: u8,
    pub destination: u8,
    pub kind: u8,
    pub x: u32,
    pub y: u32,
    pub z: u32,
}

// The code of a person or a design: twelve bytes, padded with zeros, as three big-endian words.
#[repr(C)]
#[derive(Clone, Copy, PartialEq, Eq)]
pub struct Code {
    pub a: u32,
    pub b: u32,
    pub c: u32,
}

// The answer to a scheme card: the number, the scheme's three counts, and how many records were written.
#[repr(C)]
#[derive(Clone, Copy)]
pub struct SchemeRead {
    pub number: u8,
    pub types: usize,
    pub kinds: usize,
    pub rights: usize,
    pub commands: usize,
}

// The answer to a roster card: the number, and how many people were written.
#[repr(C)]
#[derive(Clone, Copy)]
pub struct RosterRead {
    pub number: u8,
    pub people: usize,
}

// The answer to a batch card: the number, how many requests it holds, and how many were answered 0.
#[repr(C)]
#[derive(Clone, Copy)]
pub struct BatchRun {
    pub number: u8,
    pub requests: usize,
    pub done: usize,
}

// The answer to "may this person use this right on this design": the number, and 1 for a yes.
#[repr(C)]
#[derive(Clone, Copy)]
pub struct MayUse {
    pub number: u8,
    pub may: u8,
}

// The answer to an access list: the number, and how many pairs were written.
#[repr(C)]
#[derive(Clone, Copy)]
pub struct AccessList {
    pub number: u8,
    pub people: usize,
}

// The answer to a verdict's question.
#[repr(C)]
#[derive(Clone, Copy)]
pub struct Verdict {
    pub number: u8,
    pub states: usize,
    pub held: u8,
    pub state: usize,
    pub command: usize,
}

// The answer to a program's whole text: the number, and how many bytes were written.
#[repr(C)]
#[derive(Clone, Copy)]
pub struct Text {
    pub number: u8,
    pub bytes: usize,
}
