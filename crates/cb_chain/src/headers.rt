ghost use Rattle.std.specs.Prelude.{◌≡◌, ℕ, ◌+◌, ◌%◌, ◌<◌, ◌≤◌, [], length, slice_index_or, false, Some, vec_capacity, IfErr, IfOk, IsOkUnless, OnErr, OnOk};
ghost use Rattle.cb_base.specs.declared.fault.Fault.TheVariants.{Memory};
ghost use Rattle.cb_block.specs.declared.header.Header.{Header};
ghost use Rattle.cb_chain.specs.Calls.{AcceptsHeader};
ghost use Rattle.cb_chain.specs.Entries.{block_hash};
ghost use Rattle.cb_chain.specs.Headers.{HasFour, Meets, TakesHeaders, goes_on};
ghost use Rattle.cb_chain.specs.Keeping.{tree_of};
ghost use Rattle.cb_chain.specs.Laws.{Stays};
ghost use Rattle.cb_chain.specs.SideBranches.{KeepsChains};

use crate::chain::Chain;
use crate::change::Hashes;
use crate::tree::Tree;
use cb_base::{Fault, Hash256};
use cb_block::{Header, check_hashed_header, hashes_of_four};

/// The result of adding several headers in order.
#[derive(Drop)]
pub struct Accepted {
    /// The hashes of the headers that were added or known already, in order.
    pub met: Hashes,
    /// Why the next header was refused, if one was.
    pub refused: Option<Fault>,
}

/// The hash of the header at a place. The headers are taken by fours. At the first of four their
/// hashes are written to `four`, and the next three are read from there. Those that are left behind
/// the last four are hashed one by one.
fn hash_at(headers: &[Header], i: usize, four: &mut [Hash256; 4]) -> Hash256
    requires there { i < length headers.now }
    requires four { 0 < i % 4 → HasFour headers.now i four.old }
    ensures hash { (header : Header) → result ≡ block_hash (slice_index_or headers.now i header) }
    ensures four { HasFour headers.now i four.new }
{
    let first = i - i % 4;
    if headers.len() - first < 4 {
        return headers[i].hash();
    }
    if i == first {
        *four = hashes_of_four(
            &headers[i],
            &headers[i + 1],
            &headers[i + 2],
            &headers[i + 3],
        );
    }
    four[i - first]
}

/// Adds a header with its hash, or skips it if it is known. Fails if it is refused for any other
/// reason. There must be room for it.
fn meet_header(tree: &mut Tree, header: Header, hash: Hash256) -> Result<(), Fault>
    requires room { 0 < tree.old.room }
    requires hash { hash ≡ block_hash header }
    ensures ok { OnOk result
        (Meets (tree_of tree.old.block_indexes) header (tree_of tree.new.block_indexes)) }
    ensures against { IfErr result (λ fault. goes_on (Some fault) ≡ false) }
    ensures err { IfErr result
        (λ fault. AcceptsHeader (tree_of tree.old.block_indexes) header (Some fault)
        (tree_of tree.new.block_indexes)) }
    ensures chains { KeepsChains tree.old tree.new }
    ensures room { tree.old.room ≤ tree.new.room + 1 }
{
    check_hashed_header(&header, &hash)?;
    match tree.header_spot(header, hash) {
        Ok(spot) => {
            tree.add(spot.block_index(None), false, None);
            Ok(())
        }
        Err(fault) if fault == Fault::Known => Ok(()),
        Err(fault) => Err(fault),
    }
}

/// Adds headers in order, and pushes the hashes of those that are added or known. Stops at the
/// first that is refused for another reason, and returns that. There must be room for all.
fn meet_headers(tree: &mut Tree, headers: &[Header], met: &mut Vec<Hash256>) -> Option<Fault>
    requires room { length headers.now ≤ tree.old.room }
    requires none { met.old.items ≡ [] }
    requires capacity { length headers.now ≤ vec_capacity met.old }
    ensures takes { TakesHeaders (tree_of tree.old.block_indexes) headers.now result met.new.items
        (tree_of tree.new.block_indexes) }
    ensures chains { KeepsChains tree.old tree.new }
{
    let mut four = [Hash256([0; 32]); 4];
    for i in 0..headers.len() {
        let hash = hash_at(headers, i, &mut four);
        match meet_header(tree, headers[i], hash) {
            Ok(()) => met.push(hash).unwrap(),
            Err(fault) => return Some(fault),
        }
    }
    None
}

impl Chain {
    /// Adds headers in order, as `accept_header` does. A known header is skipped. The first header
    /// that is refused for another reason ends it: the reason is in `Accepted::refused`, the
    /// headers before it stay added, and none after it is added. Up to three of these may be
    /// hashed.
    ///
    /// The active chain stays. Fails only with `Fault::Memory`; nothing has then changed, and none
    /// of the headers is added.
    pub fn accept_headers(&mut self, headers: &[Header]) -> Result<Accepted, Fault>
        ensures ok { IfOk result
            (λ accepted. TakesHeaders self.old headers.now accepted.refused accepted.met self.new) }
        ensures stays { Stays self.old self.new }
        ensures err { OnErr result (self.new ≡ self.old) }
        ensures memory { IsOkUnless result Memory }
    {
        let mut met = Vec::with_capacity(self.alloc, headers.len())?;
        self.tree.reserve(headers.len())?;
        let refused = meet_headers(&mut self.tree, headers, &mut met);
        Ok(Accepted {
            met: Hashes::new(met),
            refused,
        })
    }
}
