//! Which addresses a node dials from the start.
ghost use Rattle.std.specs.Prelude.{◌≡◌, ◌+◌, ◌<◌, ◌≤◌, ◌++◌, ◌∷◌, [], List, IfOk, map, vec_capacity, vec_len};
ghost use Rattle.std.specs.declared.net.socket_addr.SocketAddr.{SocketAddr};
ghost use Rattle.cb_process.specs.Dialling.{AreDialled, addresses_of};

use crate::dialling::{Target, is_target};
use crate::own_address::is_own;
use std::alloc::{AllocError, Global};
use std::net::SocketAddr;

/// The addresses that a node which listens at the first one dials from the start: each of these
/// once, and its own never. Fails only for lack of memory.
pub fn targets_of(
    alloc: Global,
    own: SocketAddr,
    addresses: &[SocketAddr],
) -> Result<Vec<Target>, AllocError>
    ensures { IfOk result
        (λ targets. AreDialled own addresses.now (addresses_of targets.items)) }
{
    let mut targets = Vec::with_capacity(alloc, addresses.len())?;
    for address in addresses {
        aim(&mut targets, own, *address);
    }
    Ok(targets)
}

/// Adds an address to those that a node dials, unless it is the node's own or one of them. There
/// must be room for it.
fn aim(targets: &mut Vec<Target>, own: SocketAddr, address: SocketAddr)
    requires room { vec_len targets.old < vec_capacity targets.old }
    ensures dialled { (asked : List SocketAddr) →
        AreDialled own asked (addresses_of targets.old.items) →
        AreDialled own (asked ++ address ∷ []) (addresses_of targets.new.items) }
    ensures count { vec_len targets.new ≤ vec_len targets.old + 1 }
    ensures capacity { vec_capacity targets.new ≡ vec_capacity targets.old }
{
    if is_own(own, address) {
        return;
    }
    if is_target(targets.as_slice(), address) {
        return;
    }
    targets.push_reserved(Target::new(address, true));
}
