// A scheme by value, as the cores are lent it: its three counts, how many commands were lent, and the first 64 of them. Meets the
// definitions of `model`'s Schemes at the scheme that it stands for, `scheme_in`. Inner functions: none is offered outside.
#![tactic(auto)]

ghost use Rattle.std.specs.Prelude.{◌≡◌, not, ◌&&◌, ◌||◌, ◌≤◌, leb, ltb, eqb, length, take, cond, true, Some, None, IfOk};
ghost use Rattle.model.specs.Words.{between, all, ◌when◌else◌};
ghost use Rattle.model.specs.Rights.{fits_rights};
ghost use Rattle.model.specs.Refusals.{number_given};
ghost use Rattle.model.specs.Schemes.{is_create, is_grant, command_at, command_is_valid, scheme_is_valid, scheme_number};
ghost use Rattle.schemes.specs.Loads.{listed, scheme_in, unloaded};
ghost use Rattle.schemes.specs.Answers.{scheme_told};

use model::form::Form;
use model::refusal::Refusal;
use model::{Command, SchemeRead};
use rights::{fits_rights, with_those};

// The most of each that a scheme may have.
pub const MOST_TYPES: usize = 8;

pub const MOST_KINDS: usize = 4;

pub const MOST_RIGHTS: usize = 32;

pub const MOST_COMMANDS: usize = 64;

// What stands at the places that no command has.
const NO_COMMAND: Command = Command {
    form: 0,
    source: 0,
    destination: 0,
    kind: 0,
    x: 0,
    y: 0,
    z: 0,
};

// A scheme that was loaded from the lent list of its commands. Commands past the 64th are counted and not kept.
#[derive(Clone, Copy)]
pub struct Loaded {
    pub types: usize,
    pub kinds: usize,
    pub rights: usize,
    pub count: usize,
    pub commands: [Command; MOST_COMMANDS],
}

impl Loaded {
    // A scheme with these counts and no command yet.
    #[tactic(auto, unfolding(crate::specs::Loads::unloaded))]
    pub fn empty(types: usize, kinds: usize, rights: usize) -> Self
        ensures { result ≡ unloaded types kinds rights }
    {
        Loaded {
            types,
            kinds,
            rights,
            count: 0,
            commands: [NO_COMMAND; MOST_COMMANDS],
        }
    }

    // The commands that are kept, which are all of a valid scheme's.
    pub fn kept(&self) -> &[Command]
        ensures { result.now ≡ take self.now.count self.now.commands }
    {
        &self.commands[..self.count.min(MOST_COMMANDS)]
    }

    // The command at a place of the scheme, if there is one.
    pub fn command(&self, i: usize) -> Option<Command>
        requires { length (scheme_in self.now).commands ≤ 64 }
        ensures { result ≡ (Some (command_at (scheme_in self.now) i) when ltb i (length (scheme_in self.now).commands) else None) }
    {
        self.kept().get(i).copied()
    }

    // The form is one of the three, and the command's types and kind are within the scheme's counts.
    fn is_within_counts(&self, c: Command) -> bool
        ensures { result ≡ (between 1 3 c.form && ltb c.source self.now.types && ltb c.destination self.now.types && ltb c.kind self.now.kinds) }
    {
        Form::try_from(c.form).is_ok()
            && usize::from(c.source) < self.types
            && usize::from(c.destination) < self.types
            && usize::from(c.kind) < self.kinds
    }

    // X, Y and Z, put together, have no right at or above the scheme's count.
    #[tactic(auto, using(laws::proofs::Bits::fits_with))]
    fn fits(&self, c: Command) -> bool
        requires { self.now.rights ≤ 32 }
        ensures { result ≡ (fits_rights self.now.rights c.x && fits_rights self.now.rights c.y && fits_rights self.now.rights c.z) }
    {
        fits_rights(with_those(with_those(c.x, c.y), c.z), self.rights)
    }

    // The command keeps the rules of a scheme with these counts.
    #[tactic(auto, unfolding(model::specs::Schemes::command_is_valid))]
    pub fn command_is_valid(&self, c: Command) -> bool
        requires { self.now.rights ≤ 32 }
        ensures { result ≡ command_is_valid self.now.types self.now.kinds self.now.rights c }
    {
        self.is_within_counts(c) && self.fits(c) && names_one_type(c) && asks_nothing(c)
    }

    // Each of the commands keeps the rules.
    fn all_valid(&self, commands: &[Command]) -> bool
        requires { self.now.rights ≤ 32 }
        ensures { result ≡ all (command_is_valid self.now.types self.now.kinds self.now.rights) commands.now }
    {
        commands.iter().all(|c| self.command_is_valid(*c))
    }

    // Each count is within its size.
    fn is_within_sizes(&self) -> bool
        ensures { result ≡ (between 1 8 self.now.types && between 1 4 self.now.kinds && between 1 32 self.now.rights && leb self.now.count 64) }
    {
        (1..=MOST_TYPES).contains(&self.types)
            && (1..=MOST_KINDS).contains(&self.kinds)
            && (1..=MOST_RIGHTS).contains(&self.rights)
            && self.count <= MOST_COMMANDS
    }

    // The scheme keeps its sizes, and its commands the rules.
    #[tactic(auto, using(crate::proofs::Loads::valid_as_kept))]
    pub fn is_valid(&self) -> bool
        ensures valid { result ≡ scheme_is_valid (scheme_in self.now) }
        ensures kept { result ≡ true → self.now.count ≤ 64 }
        ensures counted { length (listed self.now) ≡ self.now.count }
    {
        self.is_within_sizes() && self.all_valid(self.kept())
    }

    // The scheme is refused unless it is valid.
    #[tactic(auto, unfolding(model::specs::Schemes::scheme_number))]
    pub fn check(&self) -> Result<(), Refusal>
        ensures number { number_given result ≡ scheme_number (scheme_in self.now) }
        ensures kept { IfOk result (λ u. self.now.count ≤ 64) }
        ensures counted { length (listed self.now) ≡ self.now.count }
    {
        if self.is_valid() {
            Ok(())
        } else {
            Err(Refusal::BadScheme)
        }
    }
}

// Only a grant goes from a type to another.
fn names_one_type(c: Command) -> bool
    ensures { result ≡ (is_grant c || eqb c.destination c.source) }
{
    c.is_grant() || c.destination == c.source
}

// A create neither asks nor takes.
fn asks_nothing(c: Command) -> bool
    ensures { result ≡ (not (is_create c) || eqb c.x 0 && eqb c.y 0) }
{
    !c.is_create() || c.x == 0 && c.y == 0
}

// What a scheme card gives that is not refused: the scheme's three counts, and how many commands it has.
impl From<Loaded> for SchemeRead {
    ghost from_gives = { λ l read. read ≡ scheme_told l };

    fn from(l: Loaded) -> Self {
        SchemeRead {
            number: 0,
            types: l.types,
            kinds: l.kinds,
            rights: l.rights,
            commands: l.count,
        }
    }
}
