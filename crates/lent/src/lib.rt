// The lent list of a scheme's commands: the two functions that read and write it. A public call loads the list into a scheme by
// value, and lends that to the inner functions; the call that fills the list writes it from one. Inner functions: none is offered outside.
#![tactic(auto)]

ghost use Rattle.std.specs.Prelude.{◌≡◌, ◌≤◌, length, take};
ghost use Rattle.model.specs.Words.{written_over};
ghost use Rattle.model.specs.Outcomes.{scheme_from};
ghost use Rattle.schemes.specs.Loads.{loaded_from};

use model::Command;
use schemes::{Loaded, MOST_COMMANDS};

// The commands are written from the list's beginning.
#[tactic(auto, unfolding(model::specs::Words::written_over))]
fn write_over(list: &mut [Command], commands: &[Command])
    requires { length commands.now ≤ length list.old }
    ensures { list.new ≡ written_over commands.now list.old }
{
    list[..commands.len()].copy_from_slice(commands);
}

// The commands, with the scheme's counts, as a scheme by value: the first 64 are kept, and all are counted.
#[tactic(auto, unfolding(schemes::specs::Loads::loaded_from, schemes::specs::Loads::unloaded))]
pub fn load(commands: &[Command], types: usize, kinds: usize, rights: usize) -> Loaded
    ensures { result ≡ loaded_from (scheme_from commands.now types kinds rights) }
{
    let mut l = Loaded::empty(types, kinds, rights);
    l.count = commands.len();
    let kept = commands.len().min(MOST_COMMANDS);
    write_over(&mut l.commands, &commands[..kept]);
    l
}

// The commands of a scheme by value, written from the list's beginning.
pub fn store_all(commands: &mut [Command], l: &Loaded)
    requires { (l.now.count ≤ 64) × (l.now.count ≤ length commands.old) }
    ensures { commands.new ≡ written_over (take l.now.count l.now.commands) commands.old }
{
    write_over(commands, l.kept());
}
