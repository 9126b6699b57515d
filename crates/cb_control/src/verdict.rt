//! What an audit answers.
ghost use Rattle.std.specs.Prelude.{◌≡◌};
ghost use Rattle.cb_control.specs.Outcomes.{agreement, says_yes};

use crate::ending::Halt;

/// What an audit answers: whether the hall's journal and the traces of its connections tell one
/// history.
#[derive(Clone, Copy)]
pub enum Verdict {
    /// They do: how many answers were compared, and how many couldn't be, since a checkpoint had
    /// dropped them.
    Yes(u128, u128),
    /// The hall granted a connection another number of questions than its trace has answers: its
    /// slot and its generation.
    Count(u16, u64),
    /// A question or an answer of a connection differs: its slot, its generation, and the place,
    /// counted from 0.
    Differs(u16, u64, u64),
    /// The traces don't come in the order of their connections.
    OutOfOrder,
    /// Memory ran out.
    Memory,
}

impl Verdict {
    /// Whether it is yes.
    pub fn is_yes(self) -> bool
        ensures { result ≡ says_yes self }
    {
        matches!(self, Verdict::Yes(_, _))
    }

    /// Whether it is yes. Fails with `Halt::Memory` if memory ran out for it.
    pub fn agrees(self) -> Result<bool, Halt>
        ensures { result ≡ agreement self }
    {
        match self {
            Verdict::Yes(_, _) => Ok(true),
            Verdict::Memory => Err(Halt::Memory),
            _ => Ok(false),
        }
    }
}
