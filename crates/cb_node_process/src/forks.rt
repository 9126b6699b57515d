//! Where branches leave the best chain.
ghost use Rattle.std.specs.Prelude.{◌≡◌, IfErr};
ghost use Rattle.cb_rpc_call.specs.declared.fault.RpcFault.TheVariants.{Memory};

use cb_base::{Hash256, Seed};
use cb_control::Host;
use cb_node::Node;
use cb_rpc_call::RpcFault;
use std::alloc::Global;
use std::collections::HashMap;

/// At which heights branches leave the best chain, by the hashes of their headers. Each header is
/// looked at once, however many branches stand on it.
#[derive(Drop)]
pub struct Forks {
    alloc: Global,
    heights: HashMap<Hash256, u32, Seed>,
}

impl Forks {
    /// No branch was looked at yet. Its table has this seed.
    pub fn new(alloc: Global, seed: Seed) -> Forks {
        Forks {
            alloc,
            heights: HashMap::with_hasher(alloc, seed),
        }
    }

    /// The height of the highest header of the best chain on which the branch with this end stands.
    pub fn fork_of<R: Host>(&mut self, node: &Node<R>, end: Hash256) -> Result<u32, RpcFault>
        ensures { IfErr result (λ fault. fault ≡ Memory) }
    {
        let mut branch = Vec::new(self.alloc);
        let height = self.descend(node, end, &mut branch)?;
        self.keep(branch.as_slice(), height)?;
        Ok(height)
    }

    /// Goes down from a header to the best chain, or to a branch that was looked at. Returns the
    /// height at which the branch leaves the best chain. The headers that weren't looked at before
    /// are appended to `branch`.
    fn descend<R: Host>(
        &self,
        node: &Node<R>,
        end: Hash256,
        branch: &mut Vec<Hash256>,
    ) -> Result<u32, RpcFault>
        ensures { IfErr result (λ fault. fault ≡ Memory) }
    {
        let mut hash = end;
        for _ in 0..u64::MAX {
            if let Some(height) = self.heights.get(&hash) {
                return Ok(*height);
            }
            let Some(look) = node.header(&hash) else {
                return Ok(0);
            };
            if look.best {
                return Ok(look.height);
            }
            branch.push(hash)?;
            hash = look.header.prev;
        }
        Ok(0)
    }

    /// Keeps that the branch of these headers leaves the best chain at a height.
    fn keep(&mut self, branch: &[Hash256], height: u32) -> Result<(), RpcFault>
        ensures { IfErr result (λ fault. fault ≡ Memory) }
    {
        for hash in branch {
            self.heights.insert(*hash, height)?;
        }
        Ok(())
    }
}
