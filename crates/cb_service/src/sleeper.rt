ghost use Rattle.std.specs.Prelude.{IsOkUnless};
ghost use Rattle.cb_base.specs.declared.fault.Fault.TheVariants.{Memory};

use cb_base::Fault;
use crossbeam_utils::sync::{Parker, Unparker};
use std::alloc::Global;
use std::sync::{Mutex, Wait};

/// Where a thread sleeps until another wakes it, on a parker. One thread at a time sleeps there;
/// the lock is its own while it sleeps.
#[derive(Drop)]
pub struct Sleeper {
    parker: Mutex<Parker>,
    unparker: Unparker,
}

impl Sleeper {
    /// A sleeper that nobody woke. Fails only with `Fault::Memory`.
    pub fn new(alloc: Global) -> Result<Sleeper, Fault>
        ensures { IsOkUnless result Memory }
    {
        let parker = Parker::new(alloc)?;
        let unparker = parker.unparker().clone()?;
        Ok(Sleeper {
            parker: Mutex::new(parker),
            unparker,
        })
    }

    /// Sleeps until it is woken. It doesn't sleep if it was woken since its last sleep.
    pub fn sleep<R: Wait>(&self, rt: &R) {
        self.parker.lock(rt).park(rt);
    }

    /// Wakes whoever sleeps here, or who sleeps here next.
    pub fn wake(&self) {
        self.unparker.unpark();
    }
}
