//! What is kept of a node's headers between two calls.
ghost use Rattle.std.specs.Prelude.{◌≡◌, IfErr};
ghost use Rattle.cb_rpc_call.specs.declared.fault.RpcFault.TheVariants.{Memory};

use crate::refusing::or_memory;
use cb_base::{Hash256, Seed};
use cb_block::Header;
use cb_control::Host;
use cb_node::Node;
use cb_rpc_call::RpcFault;
use std::alloc::Global;
use std::collections::HashMap;

/// Where the branches of a node's headers end. It is caught up with the headers that were accepted
/// since the last call, so it costs what is new.
#[derive(Drop)]
pub struct Survey {
    pub(crate) seed: Seed,
    /// How many headers it has seen, in the order in which the node accepted them.
    seen: u32,
    /// The greatest height of a header.
    pub(crate) greatest: u32,
    /// The heights of the headers on which no other stands, by their hashes. The genesis block's
    /// isn't among them.
    pub(crate) ends: HashMap<Hash256, u32, Seed>,
}

impl Survey {
    /// Nothing was seen of a node yet. Its table has this seed.
    pub fn new(alloc: Global, seed: Seed) -> Survey {
        Survey {
            seed,
            seen: 0,
            greatest: 0,
            ends: HashMap::with_hasher(alloc, seed),
        }
    }

    /// Looks at the headers that the node accepted since the last call. It must be the same node
    /// each time.
    pub fn catch_up<R: Host>(&mut self, node: &Node<R>) -> Result<(), RpcFault>
        ensures { IfErr result (λ fault. fault ≡ Memory) }
    {
        for _ in 0..u64::MAX {
            let headers = or_memory(node.headers_from(self.seen))?;
            if headers.is_empty() {
                return Ok(());
            }
            self.note_all(node, headers.as_slice())?;
        }
        Ok(())
    }

    /// Looks at the next headers that the node accepted.
    fn note_all<R: Host>(&mut self, node: &Node<R>, headers: &[Header]) -> Result<(), RpcFault>
        ensures { IfErr result (λ fault. fault ≡ Memory) }
    {
        for header in headers {
            self.note(node, header)?;
        }
        Ok(())
    }

    /// Looks at the next header that the node accepted.
    fn note<R: Host>(&mut self, node: &Node<R>, header: &Header) -> Result<(), RpcFault>
        ensures { IfErr result (λ fault. fault ≡ Memory) }
    {
        let height = self.height_of(node, &header.prev).saturating_add(1);
        self.ends.insert(header.hash(), height)?;
        self.ends.remove(&header.prev);
        self.greatest = self.greatest.max(height);
        self.seen = self.seen.saturating_add(1);
        Ok(())
    }

    /// The height of a header that was accepted.
    fn height_of<R: Host>(&self, node: &Node<R>, hash: &Hash256) -> u32 {
        if let Some(height) = self.ends.get(hash) {
            return *height;
        }
        match node.header(hash) {
            Some(look) => look.height,
            None => 0,
        }
    }
}
