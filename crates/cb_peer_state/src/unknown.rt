//! What a session does where something is unknown: the parent of a header or a block, or an
//! announced block. At most one request for headers is sent for that at a time (own).
ghost use Rattle.std.specs.Prelude.{◌≡◌, [], false, Option, Some, IfOk, IsOk, IsOkUnless, OnOk};
ghost use Rattle.cb_base.specs.declared.fault.Fault.TheVariants.{Memory, NoParent};
ghost use Rattle.cb_wire.specs.declared.item.Item.{Item};
ghost use Rattle.cb_peer_state.specs.Outcomes.{IsLightOutcome, Makes, as_list};
ghost use Rattle.cb_peer_state.specs.Replying.{is_orphan, orphaned, search, seeks};
ghost use Rattle.cb_peer_state.specs.Session.{weighs_child};
ghost use Rattle.cb_peer_state.specs.State.{awaits, may_seek, seeking, with_child};

use crate::inventory::asking_headers;
use crate::outgoing::Outgoing;
use crate::reaction::{Reaction, one_message};
use crate::session_state::SessionState;
use cb_base::{Fault, Hash256};
use cb_block::Header;
use cb_wire::Locator;
use std::alloc::Global;

impl SessionState {
    /// Whether headers may be requested for something unknown: none were that weren't answered yet,
    /// and no header is remembered.
    pub fn may_seek(&self) -> bool
        ensures { result ≡ may_seek self.now }
    {
        !self.unknown && !self.remembers()
    }

    /// The request for headers after this locator if something unknown was found and they may be
    /// requested for it. That it is sent is noted.
    ///
    /// Fails only with `Fault::Memory`, and never if nothing is requested.
    pub fn seek(
        &mut self,
        alloc: Global,
        found: bool,
        locator: &Locator,
    ) -> Result<Option<Outgoing>, Fault>
        ensures session { OnOk result (self.new ≡ seeking found self.old) }
        ensures message { IfOk result
            (λ made. as_list made ≡ search found self.old locator.now) }
        ensures memory { IsOkUnless result Memory }
        ensures silent { search found self.old locator.now ≡ [] → IsOk result }
    {
        if !found || !self.may_seek() {
            return Ok(None);
        }
        let request = asking_headers(locator.copy(alloc)?);
        self.unknown = true;
        Ok(Some(request))
    }

    /// As `seek`, and the request in a list of its own, which is empty where nothing is requested.
    pub fn search(
        &mut self,
        alloc: Global,
        found: bool,
        locator: &Locator,
    ) -> Result<Vec<Outgoing>, Fault>
        ensures session { OnOk result (self.new ≡ seeking found self.old) }
        ensures messages { IfOk result
            (λ made. made.items ≡ search found self.old locator.now) }
        ensures memory { IsOkUnless result Memory }
        ensures silent { search found self.old locator.now ≡ [] → IsOk result }
    {
        match self.seek(alloc, found, locator)? {
            None => Ok(Vec::new(alloc)),
            Some(request) => one_message(alloc, request),
        }
    }

    /// Something is unknown: headers after this locator are requested if they may be, and the item
    /// is done.
    ///
    /// Fails only with `Fault::Memory`.
    #[tactic(auto, using(crate::proofs::Lights::seeks_silent))]
    pub fn end_seeking(&mut self, alloc: Global, locator: &Locator) -> Result<Reaction, Fault>
        ensures ok { (item : Option Item) → IfOk result
            (λ made. Makes (seeks self.old locator.now)
            item self.new made.messages.items made.next) }
        ensures memory { IsOkUnless result Memory }
        ensures silent { IsLightOutcome (seeks self.old locator.now) → IsOk result }
    {
        let messages = self.search(alloc, true, locator)?;
        self.end(alloc, messages)
    }

    /// A block came before its parent. If that is in flight or wanted, the block is queued for
    /// download behind it, and waits for it. Else headers after this locator are requested, if they
    /// may be. The header is that of the block, if it is known.
    ///
    /// Fails only with `Fault::Memory`.
    pub fn end_orphaned(
        &mut self,
        alloc: Global,
        header: Option<Header>,
        locator: &Locator,
    ) -> Result<Reaction, Fault>
        ensures ok { (item : Option Item) → IfOk result
            (λ made. Makes (orphaned self.old header locator.now)
            item self.new made.messages.items made.next) }
        ensures memory { IsOkUnless result Memory }
        ensures silent { weighs_child self.old header (Some NoParent) ≡ false →
            IsLightOutcome (orphaned self.old header locator.now) → IsOk result }
    {
        let Some(header) = header else {
            return self.end_seeking(alloc, locator);
        };
        if !self.awaits(&header.prev) {
            return self.end_seeking(alloc, locator);
        }
        self.queue_child(header.hash(), header.prev)?;
        self.end(alloc, Vec::new(alloc))
    }

    /// Whether the block is in flight or wanted, and no header is remembered.
    fn awaits(&self, hash: &Hash256) -> bool
        ensures { result ≡ awaits self.now hash.now }
    {
        !self.remembers() && self.fetch.is_fetched(hash)
    }

    /// Queues a block for download whose parent is in flight or wanted. If it has no room, the
    /// header before it is remembered. Fails only with `Fault::Memory`.
    fn queue_child(&mut self, hash: Hash256, parent: Hash256) -> Result<(), Fault>
        ensures child { OnOk result (self.new ≡ with_child hash parent self.old) }
        ensures memory { IsOkUnless result Memory }
    {
        self.fetch.want_one(hash)?;
        if !self.fetch.is_fetched(&hash) {
            self.resume_from = Some(parent);
        }
        Ok(())
    }
}

/// Whether the hall refused a header or a block since its parent is unknown, or its parent's block
/// isn't there.
pub fn is_orphan(refused: Option<Fault>) -> bool
    ensures { result ≡ is_orphan refused }
{
    matches!(refused, Some(Fault::NoParent))
}
