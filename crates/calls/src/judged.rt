// Traps of the verdict: its range (15), normal by kind (16), duplicate steps (19), and the lines that the verdict program prints.
use mill::{commands_a, commands_b};
use model::Command;
use std::io;
use trials::asking::{CREATE, Scheme, asked, asked_in, commands_c, line};
use trials::printing::verdict_lines;
use trials::writing::ShortStream;

// Trap 6: a table too short; budgets.
fn tables(rt: &impl Print) -> io::Result<()> {
    for (name, budget, words) in [
        ("T6 88 words: ", 11, 88),
        ("T6 87 words: ", 11, 87),
        ("T6 no table: ", 11, 0),
        ("T6 budget 0: ", 0, 16392),
        ("T6 budget 1: ", 1, 16392),
        ("T6 budget 2,048: ", 2048, 16392),
        ("T6 budget 2,049: ", 2049, 16392),
    ] {
        let commands = commands_a();
        asked_in(
            rt,
            name,
            Scheme::of_mill(&commands),
            [0, 0, 7, budget],
            words,
        )?;
    }
    Ok(())
}

// Trap 6: a start that is no create, or no command; type and right; 15 before 16, and 16 before 18.
fn ranges(rt: &impl Print) -> io::Result<()> {
    for (name, commands, question) in [
        ("T6 command 1: ", commands_a(), [1, 0, 7, 11]),
        ("T6 command 7: ", commands_a(), [7, 0, 7, 11]),
        ("T6 type 2: ", commands_a(), [0, 2, 7, 11]),
        ("T6 type 3: ", commands_a(), [0, 3, 7, 11]),
        ("T6 right 8: ", commands_a(), [0, 0, 8, 11]),
        ("T6 15 before 16: ", commands_c(), [0, 0, 8, 11]),
        ("T6 16 before 18: ", commands_c(), [0, 0, 7, 1]),
    ] {
        asked(rt, name, Scheme::of_mill(&commands), question)?;
    }
    Ok(())
}

// Two kinds. Right 1 is a propagation right of kind 1 alone, so that kind 0 may take it untested, and kind 1 (command 4) may not.
fn two_kinds() -> [Command; 5] {
    [
        CREATE,
        line(1, 0, 0, 1, 0, 0, 1),
        line(3, 0, 0, 0, 1, 2, 4),
        line(3, 0, 0, 1, 2, 0, 0),
        line(3, 0, 0, 1, 1, 2, 0),
    ]
}

// Trap 7.
fn by_kind(rt: &impl Print) -> io::Result<()> {
    for (name, question) in [
        ("T7 kind 0: ", [0, 0, 2, 2]),
        ("T7 kind 0, not held: ", [0, 0, 1, 2]),
        ("T7 kind 1: ", [1, 0, 2, 2]),
    ] {
        asked(rt, name, Scheme::new(1, 2, 3, &two_kinds()), question)?;
    }
    Ok(())
}

// Traps 8 and 9, each with one type, one kind, two rights and a create of right 0.
fn steps(rt: &impl Print) -> io::Result<()> {
    // State 0 has no duplicate step, state 1 has three, by commands 1, 2 and 3.
    let lowest = [
        CREATE,
        line(3, 0, 0, 0, 1, 0, 2),
        line(2, 0, 0, 0, 2, 0, 1),
        line(2, 0, 0, 0, 2, 0, 2),
        line(3, 0, 0, 0, 3, 3, 0),
    ];
    // What is kept and given again is a duplicate step, by command 1.
    let kept = [CREATE, line(2, 0, 0, 0, 1, 0, 1), line(3, 0, 0, 0, 1, 1, 2)];
    // A handover within one type loses before it gains.
    let handover = [CREATE, line(2, 0, 0, 0, 1, 1, 1)];
    let schemes: [(&str, &[Command], usize); 4] = [
        ("T8 lowest: ", &lowest, 3),
        ("T8 18 before 19: ", &kept, 1),
        ("T9 kept: ", &kept, 2),
        ("T9 handed over: ", &handover, 1),
    ];
    for (name, commands, budget) in schemes {
        asked(rt, name, Scheme::new(1, 1, 2, commands), [0, 0, 0, budget])?;
    }
    Ok(())
}

// Trap 18: the lines that the verdict program prints for each create of a scheme's card; none for a scheme with no create.
fn lines(rt: &impl Print) -> io::Result<()> {
    for (name, scheme) in [
        ("T18 A:\n", Scheme::of_mill(&commands_a())),
        ("T18 B:\n", Scheme::of_mill(&commands_b())),
        ("T18 C:\n", Scheme::of_mill(&commands_c())),
        ("T18 two creates:\n", Scheme::new(1, 2, 3, &two_kinds())),
        ("T18 no create:\n", Scheme::new(1, 1, 1, &[])),
        ("T18 0 types: ", Scheme::new(0, 1, 1, &[])),
    ] {
        let mut stream = ShortStream::new();
        stream.scheme(scheme);
        verdict_lines(rt, name, &stream)?;
    }
    Ok(())
}

// All of them.
pub fn verdicts(rt: &impl Print) -> io::Result<()> {
    tables(rt)?;
    ranges(rt)?;
    by_kind(rt)?;
    steps(rt)?;
    lines(rt)
}
