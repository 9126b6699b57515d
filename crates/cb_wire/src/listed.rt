ghost use Rattle.std.specs.Prelude.{◌≡◌, ◌≤◌, length, IfErr, IfOk, IsOk, IsOkUnless};
ghost use Rattle.cb_base.specs.declared.fault.Fault.TheVariants.{Memory};

use cb_base::Fault;
use std::alloc::Global;
use std::marker::Model;

/// A list in a message with at most `MOST` items. For the prover its value is the list.
#[derive(Drop)]
pub struct Listed<T, const MOST: usize> {
    list: Vec<T>,
}

impl<T, const MOST: usize> Model for Listed<T, MOST> {
    ghost use Rattle.std.specs.Prelude.{List, ◌≤◌, length};

    ghost Value = { List T };

    ghost view = { λ listed. listed.list.items };

    ghost invariant = { λ listed. length listed.list.items ≤ MOST };
}

impl<T, const MOST: usize> Listed<T, MOST> {
    /// Takes the list if it has at most `MOST` items. If it is longer, the error gives it back.
    pub fn new(list: Vec<T>) -> Result<Listed<T, MOST>, Vec<T>>
        ensures same { IfOk result (λ listed. listed ≡ list.items) }
        ensures back { IfErr result (λ back. back ≡ list) }
        ensures few { length list.items ≤ MOST → IsOk result }
    {
        if list.len() > MOST {
            return Err(list);
        }
        Ok(Listed { list })
    }

    /// Takes a list that has at most `MOST` items.
    pub fn from_few(list: Vec<T>) -> Listed<T, MOST>
        requires { length list.items ≤ MOST }
        ensures { result ≡ list.items }
    {
        Listed { list }
    }

    /// The items, in order.
    pub fn as_slice(&self) -> &[T]
        ensures same { result.now ≡ self.now }
        ensures few { length self.now ≤ MOST }
    {
        self.list.as_slice()
    }

    /// Gives the vector out.
    pub fn into_vec(self) -> Vec<T>
        ensures same { result.items ≡ self }
        ensures few { length self ≤ MOST }
    {
        let Listed { list } = self;
        list
    }
}

impl<T: Copy, const MOST: usize> Listed<T, MOST> {
    /// An equal list. Fails only with `Fault::Memory`; an empty list allocates nothing.
    pub fn copy(&self, alloc: Global) -> Result<Listed<T, MOST>, Fault>
        ensures equal { IfOk result (λ copy. copy ≡ self.now) }
        ensures memory { IsOkUnless result Memory }
        ensures unpaid { length self.now ≡ 0 → IsOk result }
    {
        let copy = copy_slice(alloc, self.as_slice())?;
        Ok(Listed::from_few(copy))
    }
}

/// A vector of the same items. Fails only with `Fault::Memory`; no items allocate nothing.
fn copy_slice<T: Copy>(alloc: Global, items: &[T]) -> Result<Vec<T>, Fault>
    ensures same { IfOk result (λ copy. copy.items ≡ items.now) }
    ensures memory { IsOkUnless result Memory }
    ensures unpaid { length items.now ≡ 0 → IsOk result }
{
    let mut copy = Vec::with_capacity(alloc, items.len())?;
    copy.extend_from_slice(items)?;
    Ok(copy)
}
