ghost use Rattle.std.specs.Prelude.{◌≡◌, ◌<◌, suc, [], length, drop, option_copied, slice_get, take, IfOk, IfSome, IsOk, IsOkUnless};
ghost use Rattle.cb_base.specs.declared.fault.Fault.TheVariants.{Memory};
ghost use Rattle.cb_chain.specs.Best.{active};
ghost use Rattle.cb_chain.specs.Following.{headers_above, headers_after, place_in, start_of, up_to};
ghost use Rattle.cb_chain.specs.Keeping.{IsTree, active_places, tree_of};
ghost use Rattle.cb_chain.specs.Laws.{accepted_headers, active_hashes};
ghost use Rattle.cb_chain.specs.Locator.{locator_of};

use crate::branch::fork_of;
use crate::chain::Chain;
use crate::tree::Tree;
use cb_base::{Fault, Hash256};
use cb_block::Header;
use std::alloc::Global;

/// The largest number of headers that `Chain::after` returns, as in a `headers` message.
pub const MOST_HEADERS: usize = 2_000;

/// The headers of the active chain above a height. `places` has the active chain's block indexes by
/// height. Fails only with `Fault::Memory`, and never if there are no such headers.
fn headers_from(
    alloc: Global,
    tree: &Tree,
    places: &[usize],
    height: usize,
) -> Result<Vec<Header>, Fault>
    requires tree { IsTree tree.now.block_indexes }
    requires places { places.now ≡ active_places (tree_of tree.now.block_indexes) }
    requires height { height < length places.now }
    ensures exact { IfOk result
        (λ headers. headers.items ≡ drop (suc height) (active (tree_of tree.now.block_indexes))) }
    ensures none { drop (suc height) (active (tree_of tree.now.block_indexes)) ≡ [] → IsOk result }
    ensures memory { IsOkUnless result Memory }
{
    let mut headers = Vec::with_capacity(alloc, places.len() - height - 1)?;
    for place in &places[height + 1..] {
        headers.push(tree.block_index(*place).header)?;
    }
    Ok(headers)
}

/// The headers of the active chain above a height, up to and including the hash `stop`, and at most
/// 2,000. Fails only with `Fault::Memory`, and never if there are no such headers.
fn headers_to(
    alloc: Global,
    tree: &Tree,
    places: &[usize],
    height: usize,
    stop: &Hash256,
) -> Result<Vec<Header>, Fault>
    requires tree { IsTree tree.now.block_indexes }
    requires places { places.now ≡ active_places (tree_of tree.now.block_indexes) }
    requires height { height < length places.now }
    ensures exact { IfOk result
        (λ headers. headers.items
        ≡ take 2000
        (up_to stop.now (drop (suc height) (active (tree_of tree.now.block_indexes))))) }
    ensures none { take 2000
        (up_to stop.now (drop (suc height) (active (tree_of tree.now.block_indexes))))
        ≡ [] → IsOk result }
    ensures memory { IsOkUnless result Memory }
{
    let mut headers = Vec::new(alloc);
    for place in &places[height + 1..] {
        if headers.len() == MOST_HEADERS {
            break;
        }
        let block_index = tree.block_index(*place);
        headers.push(block_index.header)?;
        if block_index.hash == *stop {
            break;
        }
    }
    Ok(headers)
}

impl Chain {
    /// The height of a hash, if it is on the active chain.
    pub fn active_height(&self, hash: &Hash256) -> Option<usize>
        ensures height { result ≡ place_in (active self.now) 0 hash.now }
        ensures low { IfSome result (λ height. height < length (active_places self.now)) }
    {
        let place = self.tree.place(hash)?;
        let height = self.tree.block_index(place).height as usize;
        match self.active.get(height) {
            Some(other) if *other == place => Some(height),
            _ => None,
        }
    }

    /// The height of the first of these hashes that is on the active chain, or 0 if none is.
    fn start(&self, locator: &[Hash256]) -> usize
        ensures height { result ≡ start_of (active self.now) locator.now }
        ensures low { result < length (active_places self.now) }
    {
        for hash in locator {
            if let Some(height) = self.active_height(hash) {
                return height;
            }
        }
        0
    }

    /// The answer to a `getheaders` message: the headers of the active chain after the first hash
    /// of the locator that is on it, or after the genesis block if none is. They end with the hash
    /// `stop` if it is among them. There are at most 2,000.
    ///
    /// Fails only with `Fault::Memory`, and never if there are no such headers.
    pub fn after(&self, locator: &[Hash256], stop: &Hash256) -> Result<Vec<Header>, Fault>
        ensures exact { IfOk result
            (λ headers. headers.items ≡ headers_after self.now locator.now stop.now) }
        ensures none { headers_after self.now locator.now stop.now ≡ [] → IsOk result }
        ensures memory { IsOkUnless result Memory }
    {
        let start = self.tree.block_index(self.active[self.start(locator)]);
        headers_to(
            self.alloc,
            &self.tree,
            self.active.as_slice(),
            start.height as usize,
            stop,
        )
    }

    /// The hash of the active chain's header at a height; `None` above the tip.
    pub fn at(&self, height: usize) -> Option<Hash256>
        ensures { result ≡ slice_get (active_hashes self.now) height }
    {
        let len = self.tree.len();
        match self.active.get(height) {
            Some(place) if *place < len => Some(self.tree.block_index(*place).hash),
            _ => None,
        }
    }

    /// The header that was accepted at a place in the order of acceptance, counted from 0 without
    /// the genesis block's; `None` if fewer were.
    pub fn accepted(&self, place: usize) -> Option<&Header>
        ensures { option_copied result ≡ slice_get (accepted_headers self.now) place }
    {
        let len = self.tree.len();
        if len < 2 || len - 2 < place {
            return None;
        }
        Some(&self.tree.block_index(place + 1).header)
    }

    /// The headers of the active chain above the fork with the branch of a known header, up to the
    /// tip. There are none if the header isn't known. Fails only with `Fault::Memory`, and never if
    /// there are no such headers.
    pub fn path(&self, from: &Hash256) -> Result<Vec<Header>, Fault>
        ensures exact { IfOk result (λ headers. headers.items ≡ headers_above self.now from.now) }
        ensures none { headers_above self.now from.now ≡ [] → IsOk result }
        ensures memory { IsOkUnless result Memory }
    {
        let Some(place) = self.tree.place(from) else {
            return Ok(Vec::new(self.alloc));
        };
        let fork = fork_of(&self.tree, self.active.as_slice(), place);
        headers_from(self.alloc, &self.tree, self.active.as_slice(), fork)
    }

    /// The block locator of the active chain: hashes from the tip down, first twelve one after
    /// another, then in steps of 2, 4, 8 and so on. The last is always the genesis block's, which
    /// comes once. Fails only with `Fault::Memory`.
    pub fn locator(&self) -> Result<Vec<Hash256>, Fault>
        ensures exact { IfOk result (λ hashes. hashes.items ≡ locator_of self.now) }
        ensures memory { IsOkUnless result Memory }
    {
        let mut hashes = Vec::new(self.alloc);
        let mut height = self.active.len() - 1;
        let mut step = 1usize;
        while height > 0 {
            hashes.push(self.tree.block_index(self.active[height]).hash)?;
            if hashes.len() >= 12 {
                step *= 2;
            }
            height = height.saturating_sub(step);
        }
        hashes.push(self.tree.block_index(self.active[0]).hash)?;
        Ok(hashes)
    }
}
