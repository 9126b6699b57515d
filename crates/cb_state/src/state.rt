ghost use Rattle.std.specs.Prelude.{◌≡◌, IfOk, IsOkUnless};
ghost use Rattle.cb_base.specs.declared.fault.Fault.TheVariants.{Memory};
ghost use Rattle.cb_state.specs.Announcers.{without_peer};
ghost use Rattle.cb_state.specs.State.{RelayState, WaitOn, opening};

use crate::announcers::Announcers;
use crate::connection::Connection;
use cb_base::{Fault, Seed};
use cb_chain::Chain;
use cb_pool::Pool;
use std::alloc::Global;
use std::marker::Model;

/// The chain, the mempool (pool) over the UTXO set of its tip, and the announcers: the connections
/// that are asked to announce new blocks as compact blocks. Its model is these three.
pub struct Relay {
    pub(crate) alloc: Global,
    pub(crate) chain: Chain,
    pub(crate) pool: Pool,
    pub(crate) announcers: Announcers,
}

impl Model for Relay {
    ghost use Rattle.cb_state.specs.State.{RelayState, WaitOn};

    ghost Value = { RelayState };

    ghost view = { λ state.
        record { tree = state.chain; pool = state.pool; announcers = state.announcers } };

    ghost invariant = { λ state. WaitOn state.chain state.pool };
}

impl Drop for Relay {
    fn drop(self) {
        let Relay {
            alloc: _,
            chain: _,
            pool: _,
            announcers: _,
        } = self;
    }
}

impl Relay {
    /// A state with the genesis block alone, an empty mempool and no announcers. Its tables have
    /// this seed, which changes no result. Fails only with `Fault::Memory`.
    pub fn with_seed(alloc: Global, seed: Seed) -> Result<Relay, Fault>
        ensures opening { IfOk result (λ state. state ≡ opening) }
        ensures memory { IsOkUnless result Memory }
    {
        Ok(Relay {
            alloc,
            chain: Chain::with_seed(alloc, seed)?,
            pool: Pool::with_seed(alloc, seed),
            announcers: Announcers::new(alloc)?,
        })
    }

    /// The header tree and the kept blocks.
    pub fn chain(&self) -> &Chain
        ensures { result.now ≡ self.now.tree }
    {
        &self.chain
    }

    /// The mempool. Its transactions can be spent in order on the tip's UTXO set.
    pub fn pool(&self) -> &Pool
        ensures pool { result.now ≡ self.now.pool }
        ensures wait { WaitOn self.now.tree self.now.pool }
    {
        &self.pool
    }

    /// The connections that are asked to announce new blocks as compact blocks. The one that gave
    /// the most recent new tip is last.
    pub fn announcers(&self) -> &[Connection]
        ensures { result.now ≡ self.now.announcers }
    {
        self.announcers.as_slice()
    }

    /// Removes all connections of a peer from the announcers.
    pub fn leave(&mut self, peer: u16)
        ensures { self.new
            ≡ record self.old { announcers = without_peer self.old.announcers peer } }
    {
        self.announcers.leave(peer);
    }

    /// An equal state that shares the transactions and blocks. Fails only with `Fault::Memory`.
    pub fn copy(&self) -> Result<Relay, Fault>
        ensures same { IfOk result (λ copy. copy ≡ self.now) }
        ensures memory { IsOkUnless result Memory }
    {
        Ok(Relay {
            alloc: self.alloc,
            chain: self.chain.copy()?,
            pool: self.pool.copy()?,
            announcers: self.announcers.copy(self.alloc)?,
        })
    }
}
