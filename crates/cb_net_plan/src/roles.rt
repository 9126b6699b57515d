//! What each node of a network is like.
ghost use Rattle.std.specs.Prelude.{◌≡◌, ◌-◌, IfErr, IfOk, OnOk};
ghost use Rattle.cb_base.specs.declared.fault.Fault.TheVariants.{Memory};
ghost use Rattle.cb_net_plan.specs.Roles.{after_many, role_at, roles_of, still_to_lie, still_to_stall};

use crate::draws::Draws;
use cb_base::Fault;
use std::alloc::Global;

/// What a node is like.
#[derive(Clone, Copy, Debug, PartialEq, Eq)]
pub enum Role {
    /// It does what the protocol says.
    Honest,
    /// It never answers.
    Stalls,
    /// It sends messages that break the rules.
    Lies,
}

impl Role {
    /// How many are still to stall behind one of this role, if so many were to.
    fn still_to_stall(self, stall: u32) -> u32
        ensures { result ≡ still_to_stall self stall }
    {
        match self {
            Role::Stalls => stall.saturating_sub(1),
            Role::Honest | Role::Lies => stall,
        }
    }

    /// How many are still to lie.
    fn still_to_lie(self, lie: u32) -> u32
        ensures { result ≡ still_to_lie self lie }
    {
        match self {
            Role::Lies => lie.saturating_sub(1),
            Role::Honest | Role::Stalls => lie,
        }
    }
}

/// The role for a number that was drawn, where so many of the nodes that are left are to stall and
/// so many to lie.
fn role_at(number: u64, stall: u32, lie: u32) -> Role
    ensures { result ≡ role_at number stall lie }
{
    if number < u64::from(stall) {
        return Role::Stalls;
    }
    if number < u64::from(stall) + u64::from(lie) {
        return Role::Lies;
    }
    Role::Honest
}

/// The roles of so many nodes, in the order of their numbers. The first is honest. Of the others so
/// many stall and so many lie, if there are enough; each choice of them is as likely as any other.
/// Fails only for lack of memory.
pub fn roles_of(
    alloc: Global,
    draws: &mut Draws,
    nodes: u32,
    stall: u32,
    lie: u32,
) -> Result<Vec<Role>, Fault>
    ensures exact { IfOk result (λ roles. roles.items ≡ roles_of nodes stall lie draws.old) }
    ensures draws { OnOk result (draws.new ≡ after_many (nodes - 1) draws.old) }
    ensures memory { IfErr result (λ fault. fault ≡ Memory) }
{
    let mut roles = Vec::new(alloc);
    if nodes == 0 {
        return Ok(roles);
    }
    roles.push(Role::Honest)?;
    let (mut stall, mut lie) = (stall, lie);
    for node in 1..nodes {
        let role = role_at(draws.below(u64::from(nodes - node)), stall, lie);
        roles.push(role)?;
        stall = role.still_to_stall(stall);
        lie = role.still_to_lie(lie);
    }
    Ok(roles)
}
