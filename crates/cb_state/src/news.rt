ghost use Rattle.std.specs.Prelude.{◌≡◌, ◌≤◌, [], false, if◌then◌else◌, length, None, IfOk, IsOk, IsOkUnless};
ghost use Rattle.cb_base.specs.declared.fault.Fault.TheVariants.{Memory};
ghost use Rattle.cb_chain.specs.Best.{best};
ghost use Rattle.cb_chain.specs.Entries.{block_of};
ghost use Rattle.cb_pool.specs.Listing.{since_of};
ghost use Rattle.cb_state.specs.News.{IsNews, announced, way_from};

use crate::bounded::{BoundedBlock, kept_block};
use crate::connection::Connection;
use crate::state::Relay;
use cb_base::{Fault, Hash256};
use cb_block::Header;
use cb_wire::{Listed, MOST_ENTRIES};
use std::alloc::Global;

/// The most headers that are announced at once.
pub const MOST_ANNOUNCED: usize = 8;

/// At most eight announced headers.
pub type Announced = Listed<Header, MOST_ANNOUNCED>;

/// The txids of at most 50,000 announced transactions.
pub type Txids = Listed<Hash256, MOST_ENTRIES>;

/// The news for a peer: what changed since it last asked.
#[derive(Drop)]
pub struct News {
    /// The tip's hash.
    pub tip: Hash256,
    /// The headers of the active chain above its fork point with the tip told last, up to the tip.
    /// If there are more than eight, the last one alone.
    pub path: Announced,
    /// Whether there were more than eight.
    pub long: bool,
    /// The tip's block, if it was asked for and there is exactly one new header.
    pub block: Option<BoundedBlock>,
    /// The txids of the mempool's transactions from the given arrival number on.
    pub txids: Txids,
    /// The arrival number that the mempool's next transaction gets.
    pub next: u64,
    /// Whether the connection is an announcer: one that is asked to announce new blocks as compact
    /// blocks (BIP 152).
    pub high: bool,
}

/// The headers, or the last one alone if there are more than eight. Fails only with
/// `Fault::Memory`.
fn to_announce(alloc: Global, way: Vec<Header>) -> Result<Announced, Fault>
    ensures path { IfOk result (λ path. path ≡ announced way.items) }
    ensures few { length way.items ≤ 8 → IsOk result }
    ensures memory { IsOkUnless result Memory }
{
    if way.len() <= MOST_ANNOUNCED {
        return Ok(Listed::from_few(way));
    }
    let list = Vec::from_slice(alloc, &way[way.len() - 1..])?;
    Ok(Listed::from_few(list))
}

impl Relay {
    /// Returns the news for a connection. `told` is the tip it was told last; without one, no
    /// headers are new. `from` is the arrival number of the first transaction it wasn't told.
    /// `whole` asks for the tip's block.
    ///
    /// Fails only with `Fault::Memory`, and only if there are new headers or transactions.
    pub fn news(
        &self,
        connection: Connection,
        told: Option<Hash256>,
        from: u64,
        whole: bool,
    ) -> Result<News, Fault>
        ensures news { IfOk result (IsNews self.now connection told from whole) }
        ensures none { way_from self.now.tree told ≡ [] → since_of self.now.pool.list from ≡ [] →
            IsOk result }
        ensures memory { IsOkUnless result Memory }
    {
        let way = self.way_from(told)?;
        let long = way.len() > MOST_ANNOUNCED;
        let only = way.len() == 1;
        Ok(News {
            tip: self.chain.tip(),
            path: to_announce(self.alloc, way)?,
            long,
            block: self.tip_block(whole & only)?,
            txids: self.txids_since(from)?,
            next: self.pool.next_number(),
            high: self.announcers.contains(connection),
        })
    }

    /// The headers of the active chain above its fork point with the tip told last, up to the tip.
    /// Fails only with `Fault::Memory`.
    fn way_from(&self, told: Option<Hash256>) -> Result<Vec<Header>, Fault>
        ensures way { IfOk result (λ way. way.items ≡ way_from self.now.tree told) }
        ensures none { way_from self.now.tree told ≡ [] → IsOk result }
        ensures memory { IsOkUnless result Memory }
    {
        match told {
            Some(tip) => self.chain.path(&tip),
            None => Ok(Vec::new(self.alloc)),
        }
    }

    /// The tip's block, if it is asked for. Fails only with `Fault::Memory`.
    fn tip_block(&self, asked: bool) -> Result<Option<BoundedBlock>, Fault>
        ensures block { IfOk result
            (λ block. block
            ≡ (if asked then block_of self.now.tree (best self.now.tree) else None)) }
        ensures unasked { asked ≡ false → IsOk result }
        ensures memory { IsOkUnless result Memory }
    {
        if !asked {
            return Ok(None);
        }
        kept_block(&self.chain, &self.chain.tip())
    }

    /// The txids of the mempool's transactions from this arrival number on. They fit in a message.
    /// Fails only with `Fault::Memory`.
    fn txids_since(&self, number: u64) -> Result<Txids, Fault>
        ensures txids { IfOk result (λ txids. txids ≡ since_of self.now.pool.list number) }
        ensures none { since_of self.now.pool.list number ≡ [] → IsOk result }
        ensures memory { IsOkUnless result Memory }
    {
        // No effect when it runs: it tells the prover what the type keeps.
        let _ = self.pool.len();
        let txids = self.pool.since(number)?;
        Ok(Txids::from_few(txids))
    }
}
