ghost use Rattle.std.specs.Prelude.{◌≡◌, None, IfOk, IsOk, IsOkUnless};
ghost use Rattle.cb_base.specs.declared.fault.Fault.TheVariants.{Memory};
ghost use Rattle.cb_peer_state.specs.State.{is_partial, no_compact};

use cb_base::{Fault, Hash256};
use cb_compact::Partial;
use std::alloc::Global;

/// What a session keeps for compact blocks (BIP 152).
pub struct CompactState {
    /// The block that is being rebuilt, if there is one: its missing transactions were requested.
    pub partial: Option<Partial>,
    /// The number of compact blocks that were made for the peer, modulo 2^64.
    pub made: u64,
    /// Whether the peer was last asked to announce blocks as compact blocks (`sendcmpct`).
    pub asked_high: bool,
}

impl Drop for CompactState {
    fn drop(self) {
        let CompactState {
            partial: _,
            made: _,
            asked_high: _,
        } = self;
    }
}

impl CompactState {
    /// No compact block was made for the peer, and none is being rebuilt.
    pub fn new() -> CompactState
        ensures { result ≡ no_compact }
    {
        CompactState {
            partial: None,
            made: 0,
            asked_high: false,
        }
    }

    /// Whether a block with this hash is being rebuilt.
    pub fn is_partial(&self, hash: &Hash256) -> bool
        ensures { result ≡ is_partial hash.now self.now.partial }
    {
        match &self.partial {
            None => false,
            Some(partial) => partial.header().hash() == *hash,
        }
    }

    /// An equal copy, which shares its transactions with this one.
    ///
    /// Fails only with `Fault::Memory`, and never if no block is being rebuilt.
    pub fn copy(&self, alloc: Global) -> Result<CompactState, Fault>
        ensures equal { IfOk result (λ copy. copy ≡ self.now) }
        ensures memory { IsOkUnless result Memory }
        ensures unpaid { self.now.partial ≡ None → IsOk result }
    {
        let partial = match &self.partial {
            None => None,
            Some(partial) => Some(partial.copy(alloc)?),
        };
        Ok(CompactState {
            partial,
            made: self.made,
            asked_high: self.asked_high,
        })
    }
}
