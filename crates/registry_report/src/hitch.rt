//! Why a command has no answer.

ghost use Rattle.std.specs.Prelude.{◌≡◌};
ghost use Rattle.registry_report.specs.declared.hitch.Hitch.TheVariants as hitch;
ghost use Rattle.registry_report.specs.Turns.{command_answer};

use registry_values::Refusal;

/// Why a command has no answer.
#[derive(Clone, Copy, Debug, PartialEq, Eq)]
pub enum Hitch {
    /// The label has no reference.
    NoLabel,
    /// The label to be filled has one.
    LabelTaken,
    /// The CPU is outside its section.
    NotInside,
    /// The call was refused.
    Refused(Refusal),
}

impl From<Refusal> for Hitch {
    ghost from_gives = { λ refusal given. given ≡ hitch.Refused refusal };

    fn from(refusal: Refusal) -> Hitch {
        Hitch::Refused(refusal)
    }
}

/// What a call answered, as a command's answer.
pub fn as_answer<X>(answer: Result<X, Refusal>) -> Result<X, Hitch>
    ensures { result ≡ command_answer answer }
{
    match answer {
        Ok(x) => Ok(x),
        Err(refusal) => Err(Hitch::Refused(refusal)),
    }
}
