ghost use Rattle.std.specs.Prelude.{◌≡◌, IfOk, IfErr};

use std::alloc::{AllocError, AllocFailed, Global};
use std::marker::Model;
use std::ops::Deref;
use std::sync::Arc;

/// A value on the heap with several owners, over `Arc`. The value is dropped with its last owner.
/// Contracts see the value itself.
#[derive(Drop)]
pub struct Shared<T> {
    owner: Arc<T, Global>,
}

impl<T> Model for Shared<T> {
    ghost use Rattle.std.specs.Arc.{arc_value};

    ghost Value = { T };

    ghost view = { λ shared. arc_value shared.owner };
}

impl<T> Shared<T> {
    /// Moves the value to the heap, with one owner. If the allocation fails, the error gives the
    /// value back.
    pub fn new(alloc: Global, value: T) -> Result<Shared<T>, AllocFailed<T>>
        ensures same { IfOk result (λ shared. shared ≡ value) }
        ensures back { IfErr result (λ failed. failed.value ≡ value) }
    {
        match Arc::new(alloc, value) {
            Ok(owner) => Ok(Shared { owner }),
            Err(failed) => Err(failed),
        }
    }

    /// Returns the value if this is its only owner. Otherwise the error gives this owner back.
    pub fn into_value(self) -> Result<T, Shared<T>>
        ensures value { IfOk result (λ value. value ≡ self) }
        ensures back { IfErr result (λ shared. shared ≡ self) }
    {
        match Arc::try_unwrap(self.owner) {
            Ok(value) => Ok(value),
            Err(owner) => Err(Shared { owner }),
        }
    }
}

impl<T: Drop> Clone for Shared<T> {
    ghost is_clone = { λ shared clone. clone ≡ shared };

    /// Returns one more owner of the same value. It allocates nothing.
    ///
    /// Fails only if the value already has 2^63 owners. The error is the one of a failed
    /// allocation.
    fn clone(&self) -> Result<Shared<T>, AllocError>
        ensures { IfOk result (λ clone. clone ≡ self.now) }
    {
        let owner = Arc::try_clone(&self.owner)?;
        Ok(Shared { owner })
    }
}

impl<T> Deref for Shared<T> {
    type Target = T;

    ghost deref_gives = { λ shared value. value ≡ shared };

    /// The value.
    fn deref(&self) -> &T
        ensures { result.now ≡ self.now }
    {
        &*self.owner
    }
}
