// The propagation and the deletable rights of a kind, and its first command that isn't normal.
ghost use Rattle.std.specs.Prelude.{not, ◌&&◌, List, ◌≡◌, ℕ, length, ltb, cond, Some, None};
ghost use Rattle.model.specs.declared.Command.{Command};
ghost use Rattle.model.specs.Words.{◌when◌else◌};
ghost use Rattle.model.specs.Rights.{within, common};
ghost use Rattle.model.specs.Kinds.{is_step, propagation, both, first_not_normal};
ghost use Rattle.kinds.specs.Sets.{SetsOf, with_command};

use listing::steps::is_step;
use model::Command;

// The two sets of a kind.
#[derive(Clone, Copy)]
pub struct Sets {
    pub propagation: u32,
    pub deletable: u32,
}

impl Sets {
    // The sets with what one command more, before the others, puts to them.
    #[tactic(auto, unfolding(crate::specs::Sets::with_command))]
    fn with_command(self, kind: usize, c: Command) -> Sets
        ensures { result ≡ with_command kind self c }
    {
        if !is_step(kind, c) {
            return self;
        }
        Sets {
            propagation: rights::with_those(c.x, self.propagation),
            deletable: rights::with_those(c.y, self.deletable),
        }
    }

    // The rights that are both propagation and deletable.
    pub fn both(self) -> u32
        ensures { (commands : List Command) (kind : ℕ) → SetsOf commands kind self → result ≡ both commands kind }
    {
        rights::common(self.propagation, self.deletable)
    }
}

// The sets of the commands, put together from the last command on.
pub fn sets_of(commands: &[Command], kind: usize) -> Sets
    ensures { SetsOf commands.now kind result }
{
    let none = Sets {
        propagation: 0,
        deletable: 0,
    };
    commands
        .iter()
        .rev()
        .fold(none, |sets, c| sets.with_command(kind, *c))
}

// The command is a step of the kind, and takes a right of the set that it doesn't ask for.
fn takes_unasked(set: u32, kind: usize, c: Command) -> bool
    ensures { result ≡ (is_step kind c && not (within (common c.y set) c.x)) }
{
    is_step(kind, c) && !rights::within(rights::common(c.y, set), c.x)
}

// The first command of the kind that isn't normal. The set is the propagation rights.
pub fn first_not_normal(commands: &[Command], kind: usize, set: u32) -> Option<usize>
    requires { set ≡ propagation commands.now kind }
    ensures { result ≡ (Some (first_not_normal commands.now kind) when ltb (first_not_normal commands.now kind) (length commands.now) else None) }
{
    commands.iter().position(|c| takes_unasked(set, kind, *c))
}
