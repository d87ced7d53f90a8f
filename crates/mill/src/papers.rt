// The six worked schemes of document release, as constant tables in the layout of A and B, with empty lines past the last command.
// As in the paper, schemes 3, 4 and 5 are what they add to scheme 2. Proved equal to the definitions of specs/Papers.
ghost use Rattle.std.specs.Prelude.{◌≡◌};
ghost use Rattle.mill.specs.Papers.{paper1, paper2, paper6, added3, added4, added5, seven};

use crate::{Line, command_of};
use model::Command;

// A line past the last command.
const NONE: Line = (0, 0, 0, 0, 0x000, 0x000, 0x000);

// Scheme 1, with six commands.
const ONE: [Line; 7] = [
    (1, 0, 0, 0, 0x000, 0x000, 0x007),
    (2, 0, 1, 0, 0x001, 0x004, 0x020),
    (2, 0, 2, 0, 0x001, 0x004, 0x020),
    (2, 1, 0, 0, 0x020, 0x020, 0x040),
    (2, 2, 0, 0, 0x020, 0x020, 0x100),
    (3, 0, 0, 0, 0x141, 0x140, 0x400),
    NONE,
];

// Scheme 2, with seven.
const TWO: [Line; 7] = [
    (1, 0, 0, 0, 0x000, 0x000, 0x007),
    (3, 0, 0, 0, 0x005, 0x004, 0x018),
    (2, 0, 1, 0, 0x008, 0x008, 0x020),
    (2, 0, 2, 0, 0x010, 0x010, 0x020),
    (2, 1, 0, 0, 0x020, 0x020, 0x040),
    (2, 2, 0, 0, 0x020, 0x020, 0x100),
    (3, 0, 0, 0, 0x141, 0x140, 0x400),
];

// Scheme 3: two more than scheme 2.
const THREE: [Line; 7] = [
    (2, 1, 0, 0, 0x020, 0x020, 0x080),
    (2, 2, 0, 0, 0x020, 0x020, 0x200),
    NONE,
    NONE,
    NONE,
    NONE,
    NONE,
];

// Scheme 4: two more than scheme 2.
const FOUR: [Line; 7] = [
    (2, 1, 0, 0, 0x020, 0x020, 0x00C),
    (2, 2, 0, 0, 0x020, 0x020, 0x014),
    NONE,
    NONE,
    NONE,
    NONE,
    NONE,
];

// Scheme 5: five more than scheme 2.
const FIVE: [Line; 7] = [
    (2, 1, 0, 0, 0x020, 0x020, 0x008),
    (2, 2, 0, 0, 0x020, 0x020, 0x010),
    (3, 0, 0, 0, 0x019, 0x018, 0x004),
    (3, 0, 0, 0, 0x041, 0x040, 0x008),
    (3, 0, 0, 0, 0x101, 0x100, 0x010),
    NONE,
    NONE,
];

// Scheme 6, with six commands.
const SIX: [Line; 7] = [
    (1, 0, 0, 0, 0x000, 0x000, 0x007),
    (2, 0, 1, 0, 0x001, 0x004, 0x020),
    (2, 0, 2, 0, 0x001, 0x004, 0x020),
    (2, 1, 0, 0, 0x020, 0x000, 0x040),
    (2, 2, 0, 0, 0x020, 0x000, 0x100),
    (3, 0, 0, 0, 0x140, 0x000, 0x400),
    NONE,
];

// The commands of scheme 1.
#[tactic(auto, unfolding(crate::specs::Papers::paper1, crate::specs::Papers::seven, model::specs::Words::written_over))]
pub fn paper_1() -> [Command; 7]
    ensures { result ≡ seven paper1 }
{
    ONE.map(command_of)
}

// The commands of scheme 2.
#[tactic(auto, unfolding(crate::specs::Papers::paper2, crate::specs::Papers::seven, model::specs::Words::written_over))]
pub fn paper_2() -> [Command; 7]
    ensures { result ≡ seven paper2 }
{
    TWO.map(command_of)
}

// What scheme 3 adds to scheme 2.
#[tactic(auto, unfolding(crate::specs::Papers::added3, crate::specs::Papers::seven, model::specs::Words::written_over))]
pub fn added_3() -> [Command; 7]
    ensures { result ≡ seven added3 }
{
    THREE.map(command_of)
}

// What scheme 4 adds to scheme 2.
#[tactic(auto, unfolding(crate::specs::Papers::added4, crate::specs::Papers::seven, model::specs::Words::written_over))]
pub fn added_4() -> [Command; 7]
    ensures { result ≡ seven added4 }
{
    FOUR.map(command_of)
}

// What scheme 5 adds to scheme 2.
#[tactic(auto, unfolding(crate::specs::Papers::added5, crate::specs::Papers::seven, model::specs::Words::written_over))]
pub fn added_5() -> [Command; 7]
    ensures { result ≡ seven added5 }
{
    FIVE.map(command_of)
}

// The commands of scheme 6.
#[tactic(auto, unfolding(crate::specs::Papers::paper6, crate::specs::Papers::seven, model::specs::Words::written_over))]
pub fn paper_6() -> [Command; 7]
    ensures { result ≡ seven paper6 }
{
    SIX.map(command_of)
}
