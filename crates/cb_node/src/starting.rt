//! How a node starts.
ghost use Rattle.std.specs.Prelude.{◌≡◌, ◌+◌, ◌≤◌, length, IfOk};
ghost use Rattle.cb_crew.specs.Crew.{AreHandlersOf};
ghost use Rattle.cb_hall.specs.Connections.{most_peers};
ghost use Rattle.cb_node.specs.Node.{IsNewNode, first_labels};

use crate::crewing::{Crewed, crew_slots, shared, start_handlers};
use crate::fault::NodeFault;
use crate::node::Node;
use crate::opening::NodeWork;
use crate::serving::Service;
use crate::settings::NodeSettings;
use cb_base::Seed;
use cb_hall::Hall;
use cb_peers::Links;
use std::alloc::Global;
use std::marker::{Copy, Send};
use std::sync::{Mutex, Wait};
use std::thread::Threads;

impl<R: Threads + Wait + Copy + Send + Drop + 'static> Node<R> {
    /// Starts a node without connections, which doesn't listen. Its handlers' threads run. The
    /// tables of its hall have the fixed seed.
    ///
    /// Fails with `NodeFault::Memory`, and with `NodeFault::Io` if a thread can't be started. Each
    /// thread that was started has returned then.
    pub fn start(rt: R, alloc: Global, settings: NodeSettings) -> Result<Node<R>, NodeFault>
        requires slots { (1 ≤ settings.inbound + settings.outbound)
            × (settings.inbound + settings.outbound ≤ most_peers) }
        requires handlers { (1 ≤ settings.handlers) × (settings.handlers ≤ 16) }
        ensures { IfOk result (IsNewNode settings) }
    {
        Node::start_with_seed(rt, alloc, settings, Seed::fixed())
    }

    /// As `start`. The tables of the node's hall and of its sessions have this seed, which changes
    /// no result. Peers choose the keys of these tables, so a seed that no peer knows keeps a
    /// lookup short.
    #[tactic(auto, using(crate::proofs::Slots::badges_new, crate::proofs::Slots::badges_count))]
    pub fn start_with_seed(
        rt: R,
        alloc: Global,
        settings: NodeSettings,
        seed: Seed,
    ) -> Result<Node<R>, NodeFault>
        requires slots { (1 ≤ settings.inbound + settings.outbound)
            × (settings.inbound + settings.outbound ≤ most_peers) }
        requires handlers { (1 ≤ settings.handlers) × (settings.handlers ≤ 16) }
        ensures { IfOk result (IsNewNode settings) }
    {
        let count = settings.inbound + settings.outbound;
        let links = shared(alloc, Links::new(alloc, count)?)?;
        let (hall, badges) = Hall::with_seed(alloc, count, seed)?;
        let hall = shared(alloc, Mutex::new(hall))?;
        let service = Service {
            rt,
            alloc,
            settings,
            hall,
            links,
        };
        let firsts = service.firsts(badges)?;
        match crew_slots(&rt, alloc, firsts, settings.handlers) {
            Ok(crewed) => man(service, crewed),
            Err(fault) => {
                drop(service);
                Err(NodeFault::from(fault))
            }
        }
    }
}

/// Starts the handlers' threads of a node.
#[tactic(auto, using(crate::proofs::Slots::count_of, crate::proofs::Slots::uses_new))]
fn man<R: Threads + Wait + Copy + Send + Drop + 'static>(
    service: Service<R>,
    crewed: Crewed<NodeWork<R>>,
) -> Result<Node<R>, NodeFault>
    requires count { length crewed.common.crew.inboxes
        ≡ service.settings.inbound + service.settings.outbound }
    requires most { service.settings.inbound + service.settings.outbound ≤ most_peers }
    requires works { crewed.common.crew.labels
        ≡ first_labels (service.settings.inbound + service.settings.outbound) }
    requires handlers { AreHandlersOf crewed.common.crew crewed.handlers.items
        × (crewed.common.crew.handlers ≡ service.settings.handlers) }
    ensures { IfOk result (IsNewNode service.settings) }
{
    let Crewed {
        common,
        slots,
        handlers,
        back,
        sides,
    } = crewed;
    match start_handlers(
        &service.rt,
        service.alloc,
        &common,
        &service.links,
        service.settings.prompt,
        handlers,
    ) {
        Ok(handling) => Ok(Node {
            service,
            common,
            listening: None,
            slots,
            handling,
            handlers: back,
            sides,
        }),
        Err(fault) => {
            drop((service, common, slots, back, sides));
            Err(fault)
        }
    }
}
