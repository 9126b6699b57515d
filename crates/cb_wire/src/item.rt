ghost use Rattle.std.specs.Prelude.{◌≡◌, IfOk, IsOk, IsOkUnless};
ghost use Rattle.cb_base.specs.declared.fault.Fault.TheVariants.{Memory};

use crate::bounded::BoundedMessage;
use crate::command::Command;
use cb_base::Fault;
use std::alloc::Global;

/// What one envelope of a stream held.
#[derive(Drop)]
pub enum Item {
    /// A message within the limit of 4,000,000 bytes.
    Good(BoundedMessage),
    /// The checksum is wrong, or the command field isn't in the form of a command.
    Damaged,
    /// A known command whose payload can't be read, with the fault of the first bad field from the
    /// left.
    Bad(Command, Fault),
}

impl Item {
    ghost use Rattle.cb_wire.specs.Envelope.{KeepsNothing};

    /// An equal item. Fails only with `Fault::Memory`; an item that owns no memory can't fail.
    pub fn copy(&self, alloc: Global) -> Result<Item, Fault>
        ensures equal { IfOk result (λ copy. copy ≡ self.now) }
        ensures memory { IsOkUnless result Memory }
        ensures unpaid { KeepsNothing self.now → IsOk result }
    {
        Ok(match self {
            Item::Good(message) => Item::Good(message.copy(alloc)?),
            Item::Damaged => Item::Damaged,
            Item::Bad(command, fault) => Item::Bad(*command, *fault),
        })
    }
}
