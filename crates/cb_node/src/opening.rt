//! What is made for a connection before it has a socket.
ghost use Rattle.std.specs.Prelude.{◌≡◌, [], None, length, map, All, IfErr, IfOk};
ghost use Rattle.cb_work.specs.Flags.{HasLooked};
ghost use Rattle.cb_work.specs.PeerWork.{label_of};
ghost use Rattle.cb_node.specs.Linking.{IsLinkOf, link_label};
ghost use Rattle.cb_node.specs.Slot.{IsNew};
ghost use Rattle.cb_node.specs.Node.{session_settings};

use crate::next_connection::NextConnection;
use crate::serving::Service;
use crate::settings::session_settings;
use cb_base::{Fault, Shared};
use cb_crew::Fresh;
use cb_hall::Badge;
use cb_peers::{Link, OutboxSink};
use cb_state::Connection;
use cb_work::{NotStarted, Outlet, PeerFlags, PeerWork, SharedHall};
use std::marker::Copy;
use std::sync::Wait;

/// What serves a connection of a node.
pub type NodeWork<R> = PeerWork<OutboxSink<R>, SharedHall<R>, PeerFlags>;

/// What a session writes to, asks, and tells, and what it shares with the node.
#[derive(Drop)]
struct SessionEnds<R: Wait + Drop> {
    outlet: Outlet<OutboxSink<R>>,
    hall: SharedHall<R>,
    flags: PeerFlags,
    link: Shared<Link>,
}

impl<R: Wait + Copy + Drop> Service<R> {
    /// The first connections of slots, under these badges. Fails only with `Fault::Memory`.
    pub fn firsts(&self, badges: Vec<Badge>) -> Result<Vec<NextConnection<NodeWork<R>>>, Fault>
        requires { All IsNew badges.items }
        ensures count { IfOk result (λ firsts. length firsts.items ≡ length badges.items) }
        ensures links { IfOk result
            (λ firsts. map (λ first. first.link.peer) firsts.items
            ≡ map (λ badge. badge.connection.peer) badges.items) }
        ensures labels { IfOk result
            (λ firsts. map (λ first. link_label first.link) firsts.items
            ≡ map (λ badge. label_of badge.connection) badges.items) }
    {
        let mut firsts = Vec::with_capacity(self.alloc, badges.len())?;
        for badge in badges {
            match self.connection(badge) {
                Ok(first) => firsts.push_reserved(first),
                Err((_, fault)) => return Err(fault),
            }
        }
        Ok(firsts)
    }

    /// The connection of this badge, under which nothing was asked. Fails only with
    /// `Fault::Memory`, and gives the badge back.
    pub fn connection(&self, badge: Badge) -> Result<NextConnection<NodeWork<R>>, (Badge, Fault)>
        requires { IsNew badge }
        ensures badge { IfOk result (λ next. next.work.badge ≡ badge) }
        ensures settings { IfOk result (λ next. next.work.trace.settings
            ≡ session_settings self.now.settings badge.connection.peer) }
        // The badge, the link, and the link into whose outbox the session writes are of one
        // connection.
        ensures link { IfOk result (λ next. IsLinkOf badge.connection next.link
            × IsLinkOf badge.connection next.work.sink.link) }
        ensures back { IfErr result (λ back. back.0 ≡ badge) }
    {
        let connection = badge.connection();
        let ends = match self.ends(connection) {
            Ok(ends) => ends,
            Err(fault) => return Err((badge, fault)),
        };
        let SessionEnds {
            outlet,
            hall,
            flags,
            link,
        } = ends;
        let settings = session_settings(&self.settings, connection.peer);
        match PeerWork::new(self.alloc, settings, badge, outlet, hall, flags) {
            Ok(work) => Ok(NextConnection {
                work: Fresh::new(work),
                link,
            }),
            Err(refused) => {
                // No session ends this link, so it would never leave its list.
                link.status.stop();
                let NotStarted { badge, cause, .. } = refused;
                Err((badge, cause))
            }
        }
    }

    /// The ends of this connection's session. Fails only with `Fault::Memory`.
    fn ends(&self, connection: Connection) -> Result<SessionEnds<R>, Fault>
        ensures slot { IfOk result (λ ends. ends.outlet.slot ≡ connection.peer) }
        ensures sink { IfOk result (λ ends. (ends.outlet.sink.failure ≡ None)
            × IsLinkOf connection ends.outlet.sink.link) }
        ensures flags { IfOk result
            (λ ends. HasLooked ends.flags.looked ends.flags.found ends.flags.probes []) }
        ensures link { IfOk result (λ ends. IsLinkOf connection ends.link) }
    {
        let Connection { peer, generation } = connection;
        let link = self.links.link(self.alloc, peer, generation)?;
        let (one, status) = (link.clone()?, link.status.clone()?);
        let hall = SharedHall::new(self.rt, self.hall.clone()?, status.clone()?);
        self.links.add(&self.rt, peer, link.clone()?)?;
        Ok(SessionEnds {
            outlet: Outlet::new(peer, OutboxSink::new(self.rt, one)),
            hall,
            flags: PeerFlags::new(status),
            link,
        })
    }
}
