//! What a network is made of.
ghost use Rattle.std.specs.Prelude.{◌≡◌, ◌/◌, IfErr, IfOk, OnOk, length};
ghost use Rattle.cb_base.specs.declared.fault.Fault.TheVariants.{Memory};
ghost use Rattle.cb_net_plan.specs.Links.{all_joined, all_tried};
ghost use Rattle.cb_net_plan.specs.Planning.{AreLinks, AreRoles, IsPlan};
ghost use Rattle.cb_net_plan.specs.Sketching.{AreTold, outline_of};

use crate::draws::Draws;
use crate::links::{PlannedLink, Sketch};
use crate::roles::{Role, roles_of};
use crate::settings::NetSettings;
use cb_base::Fault;
use std::alloc::Global;

/// What a network is made of.
#[derive(Drop)]
pub struct Plan {
    /// What each node is like, in the order of their numbers.
    pub roles: Vec<Role>,
    /// The links, in the order in which they were drawn.
    pub links: Vec<PlannedLink>,
    /// What else is drawn goes on from here.
    pub draws: Draws,
}

impl Plan {
    /// Draws a network of these settings: the same one for the same settings. Fails only for lack
    /// of memory.
    pub fn draw(alloc: Global, settings: &NetSettings) -> Result<Plan, Fault>
        ensures exact { IfOk result (λ plan. IsPlan settings.now plan) }
        ensures roles { IfOk result (λ plan. AreRoles settings.now plan.roles.items) }
        ensures links { IfOk result
            (λ plan. AreLinks settings.now plan.roles.items plan.links.items) }
        ensures memory { IfErr result (λ fault. fault ≡ Memory) }
    {
        let mut draws = Draws::new(settings.seed);
        let (nodes, stall, lie) = (settings.nodes, settings.stall, settings.lie);
        let roles = roles_of(alloc, &mut draws, nodes, stall, lie)?;
        let low = u64::from(settings.latency_low) * 1_000;
        let high = u64::from(settings.latency_high) * 1_000;
        let mut sketch = Sketch::new(alloc, draws, low, high);
        join_all(&mut sketch, nodes, roles.as_slice())?;
        add_links(
            &mut sketch,
            nodes,
            u64::from(nodes) * u64::from(settings.links),
        )?;
        let (links, draws) = sketch.finish();
        Ok(Plan {
            roles,
            links,
            draws,
        })
    }
}

/// Links each of so many nodes, which have these roles, to one before it.
fn join_all(sketch: &mut Sketch, nodes: u32, roles: &[Role]) -> Result<(), Fault>
    requires told { AreTold sketch.old }
    requires all { length roles.now ≡ nodes }
    ensures told { OnOk result (AreTold sketch.new) }
    ensures outline { OnOk result
        (outline_of sketch.new ≡ all_joined 0 roles.now (outline_of sketch.old)) }
    ensures memory { IfErr result (λ fault. fault ≡ Memory) }
{
    for node in 0..nodes {
        sketch.join(node, roles[node as usize])?;
    }
    Ok(())
}

/// Tries so many times to link two more nodes, until there are half as many links as tries.
fn add_links(sketch: &mut Sketch, nodes: u32, tries: u64) -> Result<(), Fault>
    requires { AreTold sketch.old }
    ensures told { OnOk result (AreTold sketch.new) }
    ensures outline { OnOk result
        (outline_of sketch.new ≡ all_tried tries nodes (tries / 2) (outline_of sketch.old)) }
    ensures memory { IfErr result (λ fault. fault ≡ Memory) }
{
    for _turn in 0..tries {
        sketch.try_link(nodes, tries / 2)?;
    }
    Ok(())
}
