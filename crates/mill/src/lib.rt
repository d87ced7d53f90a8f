// The mill's schemes A and B as constant tables of seven commands' numbers, and the command records that they stand for.
// Proved equal to the definitions' `commands_a` and `commands_b`. The programs and the cases take the schemes from here.
#![tactic(auto)]

ghost use Rattle.std.specs.Prelude.{◌≡◌};
ghost use Rattle.model.specs.Mill.{commands_a, commands_b};
ghost use Rattle.mill.specs.Tables.{command_of};

use model::Command;

pub mod papers;

// A line of a table: a command's form, source and destination type, kind, X, Y and Z.
type Line = (u8, u8, u8, u8, u32, u32, u32);

// Scheme A.
const A: [Line; 7] = [
    (1, 0, 0, 0, 0x00, 0x00, 0x03),
    (3, 0, 0, 0, 0x03, 0x02, 0x0C),
    (2, 0, 1, 0, 0x04, 0x04, 0x10),
    (2, 0, 2, 0, 0x08, 0x08, 0x10),
    (2, 1, 0, 0, 0x10, 0x10, 0x20),
    (2, 2, 0, 0, 0x10, 0x10, 0x40),
    (3, 0, 0, 0, 0x60, 0x00, 0x80),
];

// Scheme B.
const B: [Line; 7] = [
    (1, 0, 0, 0, 0x00, 0x00, 0x03),
    (3, 0, 0, 0, 0x03, 0x02, 0x04),
    (2, 0, 1, 0, 0x04, 0x00, 0x10),
    (2, 0, 2, 0, 0x04, 0x00, 0x10),
    (2, 1, 0, 0, 0x10, 0x10, 0x20),
    (2, 2, 0, 0, 0x10, 0x10, 0x40),
    (3, 0, 0, 0, 0x60, 0x00, 0x80),
];

// The command that a line of a table stands for.
fn command_of(line: Line) -> Command
    ensures { result ≡ command_of line }
{
    let (form, source, destination, kind, x, y, z) = line;
    Command {
        form,
        source,
        destination,
        kind,
        x,
        y,
        z,
    }
}

// The commands of scheme A.
#[tactic(auto, unfolding(model::specs::Mill::commands_a))]
pub fn commands_a() -> [Command; 7]
    ensures { result ≡ commands_a }
{
    A.map(command_of)
}

// The commands of scheme B.
#[tactic(auto, unfolding(model::specs::Mill::commands_b, model::specs::Mill::commands_a))]
pub fn commands_b() -> [Command; 7]
    ensures { result ≡ commands_b }
{
    B.map(command_of)
}
