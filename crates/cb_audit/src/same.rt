//! What equality is, for single values.
use cb_base::{Hash256, Shared};
use cb_block::{Header, OutPoint};
use cb_wire::Inventory;

/// A value that can be compared with another one. Contracts of `==` speak of a test that may be any
/// relation; this one is equality of what contracts see.
pub(crate) trait Same {
    ghost use Rattle.std.specs.Prelude.{◌≡◌, ◌↔◌, IsTrue};

    /// Whether both are the same.
    fn same(&self, other: &Self) -> bool
        ensures { IsTrue result ↔ (self.now ≡ other.now) };
}

impl Same for u64 {
    fn same(&self, other: &u64) -> bool {
        *self == *other
    }
}

impl Same for Hash256 {
    fn same(&self, other: &Hash256) -> bool {
        *self == *other
    }
}

impl Same for Inventory {
    fn same(&self, other: &Inventory) -> bool {
        *self == *other
    }
}

impl Same for Header {
    fn same(&self, other: &Header) -> bool {
        *self == *other
    }
}

impl Same for OutPoint {
    fn same(&self, other: &OutPoint) -> bool {
        *self == *other
    }
}

impl<T: Same> Same for Shared<T> {
    fn same(&self, other: &Shared<T>) -> bool {
        (**self).same(&**other)
    }
}

impl<T: Same> Same for Option<T> {
    fn same(&self, other: &Option<T>) -> bool {
        match (self, other) {
            (Some(value), Some(theirs)) => value.same(theirs),
            (None, None) => true,
            _ => false,
        }
    }
}
