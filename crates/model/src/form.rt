// The three forms of a command, by the byte that says which.
ghost use Rattle.std.specs.Prelude.{◌≡◌};
ghost use Rattle.model.specs.Schemes.{is_create, is_grant, is_internal};
ghost use Rattle.model.specs.Formed.{FormOf};

use crate::Command;

#[derive(Clone, Copy, Debug, PartialEq, Eq)]
pub enum Form {
    Create = 1,
    Grant = 2,
    Internal = 3,
}

// A byte that says none of the three.
#[derive(Clone, Copy, Debug, PartialEq, Eq)]
pub struct NoForm(pub u8);

impl TryFrom<u8> for Form {
    type Error = NoForm;

    ghost try_from_gives = { FormOf };

    fn try_from(byte: u8) -> Result<Self, NoForm> {
        match byte {
            1 => Ok(Form::Create),
            2 => Ok(Form::Grant),
            3 => Ok(Form::Internal),
            _ => Err(NoForm(byte)),
        }
    }
}

impl Command {
    // The command makes a design.
    pub fn is_create(self) -> bool
        ensures { result ≡ is_create self }
    {
        matches!(Form::try_from(self.form), Ok(Form::Create))
    }

    // The command goes from a person to another, or the same.
    pub fn is_grant(self) -> bool
        ensures { result ≡ is_grant self }
    {
        matches!(Form::try_from(self.form), Ok(Form::Grant))
    }

    // The command changes a person's own cell.
    pub fn is_internal(self) -> bool
        ensures { result ≡ is_internal self }
    {
        matches!(Form::try_from(self.form), Ok(Form::Internal))
    }
}
