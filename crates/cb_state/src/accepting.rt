ghost use Rattle.std.specs.Prelude.{◌≡◌, ◌≢◌, ◌⊎◌, ◌≤◌, ◌++◌, [], drop, filter, length, option_copied, IfErr, IfOk, IfSome, IsOk, IsOkUnless, MatchOption, MatchResult, None, OnErr, OnOk, Err, Some, true};
ghost use Rattle.cb_base.specs.declared.fault.Fault.TheVariants.{Memory, NoParent};
ghost use Rattle.cb_block.specs.Blocks.{MeetsBlockRules};
ghost use Rattle.cb_chain.specs.Best.{best};
ghost use Rattle.cb_chain.specs.Entries.{is_lacking};
ghost use Rattle.cb_chain.specs.Laws.{MayLead};
ghost use Rattle.cb_chain.specs.Locator.{locator_of};
ghost use Rattle.cb_ledger.specs.Spend.{spend};
ghost use Rattle.cb_pool.specs.Folding.{Refolds};
ghost use Rattle.cb_pool.specs.Listing.{txs_of};
ghost use Rattle.cb_pool.specs.Rules.{IsUntold};
ghost use Rattle.cb_state.specs.Accepting.{MayLackMemory, TakesBlock, IsPooledValue, JudgesTx, TakesHeads, TakesTx, announcers_after, locator_for, txs_above, txs_under};
ghost use Rattle.cb_state.specs.Outlooks.{IsOutlookOn, IsReady, first_of};

use crate::announcers::Announcers;
use crate::connection::Connection;
use crate::judging::fault_of_block;
use crate::locator::locator_of;
use crate::state::Relay;
use cb_base::{Fault, Hash256, Shared};
use cb_block::{Header, OutPoint, SoundBlock, Tx};
use cb_chain::{Chain, Hashes, kept_meet_rules};
use cb_ledger::Ledger;
use cb_pool::{Candidate, Pool, Refolding, Thinning, stays_as_it_is, stays_behind_others};
use cb_wire::Locator;
use std::alloc::Global;

/// The outcome of a block.
#[derive(Drop)]
pub struct Taken {
    /// Why the block was refused; `None` if it was accepted.
    pub refused: Option<Fault>,
    /// The chain's block locator if the refusal is `Fault::NoParent`, else empty.
    pub locator: Locator,
}

/// The outcome of a list of headers.
#[derive(Drop)]
pub struct Heads {
    /// Why the first refused header was refused; `None` if none was.
    pub refused: Option<Fault>,
    /// The hashes of the headers before that one whose blocks are neither kept nor marked bad, in
    /// order.
    pub lack: Hashes,
    /// The chain's block locator if the refusal is `Fault::NoParent`, else empty.
    pub locator: Locator,
}

/// The locator for `Fault::NoParent`, else an empty one.
fn told_locator(alloc: Global, refused: Option<Fault>, locator: Locator) -> Locator
    ensures { result ≡ locator_for refused locator }
{
    match refused {
        Some(fault) if fault == Fault::NoParent => locator,
        _ => Locator::from_few(Vec::new(alloc)),
    }
}

/// Returns a refusal's fault as an answer. `Fault::Memory` alone stays an error.
fn told(fault: Fault) -> Result<Option<Fault>, Fault>
    ensures ok { IfOk result (λ refused. (refused ≡ Some fault) × (fault ≢ Memory)) }
    ensures err { IfErr result (λ error. (error ≡ Memory) × (fault ≡ Memory)) }
{
    if fault == Fault::Memory {
        return Err(fault);
    }
    Ok(Some(fault))
}

/// The outcome of a refused block. Fails only with `Fault::Memory`, if that is the fault.
fn refusal(alloc: Global, fault: Fault, locator: Locator) -> Result<Taken, Fault>
    ensures ok { IfOk result
        (λ taken. (taken.refused ≡ Some fault) × (taken.locator ≡ locator_for (Some fault) locator)
        × (fault ≢ Memory)) }
    ensures err { IfErr result (λ error. (error ≡ Memory) × (fault ≡ Memory)) }
{
    let refused = told(fault)?;
    Ok(Taken {
        refused,
        locator: told_locator(alloc, refused, locator),
    })
}

/// The outcome of no headers.
fn no_heads(alloc: Global) -> Heads
    ensures refused { result.refused ≡ None }
    ensures lack { result.lack ≡ [] }
    ensures locator { result.locator ≡ [] }
{
    Heads {
        refused: None,
        lack: Hashes::new(Vec::new(alloc)),
        locator: Locator::from_few(Vec::new(alloc)),
    }
}

/// Pushes the block's transactions except the coinbase; without a block, nothing. Fails only with
/// `Fault::Memory`.
fn push_candidates(first: &mut Vec<Candidate>, block: Option<&SoundBlock>) -> Result<(), Fault>
    requires rules { IfSome (option_copied block)
        (λ block. MeetsBlockRules block ⊎ (length block.txs ≤ 1)) }
    ensures pushed { OnOk result
        (first.new.items ≡ first.old.items ++ drop 1 (txs_under (option_copied block.entry))) }
    ensures memory { IsOkUnless result Memory }
{
    let Some(block) = block else {
        return Ok(());
    };
    for place in 1..block.block().txs.as_slice().len() {
        first.push(Candidate::of_block(block, place)?)?;
    }
    Ok(())
}

/// The hashes whose blocks are neither kept nor marked bad, in order.
fn lacking(chain: &Chain, hashes: Hashes) -> Hashes
    ensures { result ≡ filter (is_lacking chain.now) hashes }
{
    let mut list = hashes.into_vec();
    list.retain(|hash| chain.lacks(hash));
    Hashes::new(list)
}

/// What happens to the mempool if a block becomes the tip. It is worked out before the chain
/// changes.
#[derive(Drop)]
enum Outlook {
    // The mempool stays as it is: the block's parent is the tip, and the block spends and creates
    // no output that a mempool transaction spends or creates.
    Stays,
    // The block's parent is the tip, and the mempool loses what a plan names.
    Thins(Thinning),
    // The mempool is rebuilt by a plan.
    Folds(Refolding),
}

/// Applies an outlook to the mempool, if there is one.
fn follow(pool: &mut Pool, ledger: &Ledger, outlook: Option<Outlook>)
    requires ready { IfSome outlook (IsReady ledger.now.unspent pool.old.list) }
    ensures { MatchOption outlook (pool.new ≡ pool.old)
        (λ outlook. Refolds ledger.now.unspent (first_of outlook) pool.old pool.new
        × IsOk (spend ledger.now.unspent (txs_of pool.new.list))) }
{
    match outlook {
        Some(Outlook::Folds(plan)) => pool.refold_with(ledger, plan),
        Some(Outlook::Thins(plan)) => pool.thin_with(ledger, plan),
        Some(Outlook::Stays) => stays_as_it_is(pool, ledger),
        None => {}
    }
}

/// Moves the connection that gave the new tip, if one is named, to the end of the announcers.
fn thank(announcers: &mut Announcers, from: Option<Connection>)
    ensures { announcers.new ≡ announcers_after announcers.old true from }
{
    if let Some(connection) = from {
        announcers.put_last(connection);
    }
}

impl Relay {
    /// Adds a transaction to the mempool. Returns `None` if it was added, or else why it was
    /// refused (`Pool::insert` lists the reasons). A refused transaction changes nothing.
    ///
    /// Fails only with `Fault::Memory`, and never if a check that needs no memory speaks against
    /// the transaction; the state is then unchanged.
    pub fn take_tx(&mut self, tx: Shared<Tx>) -> Result<Option<Fault>, Fault>
        ensures taken { IfOk result (λ refused. TakesTx self.old tx refused self.new) }
        ensures err { OnErr result (self.new ≡ self.old) }
        ensures memory { IsOkUnless result Memory }
        // Refusals that are found without memory come before `Fault::Memory`.
        ensures unpaid { result ≡ Err Memory → IsUntold tx }
    {
        if let Err(fault) = self.pool.insert(self.chain.ledger(), tx) {
            return told(fault);
        }
        Ok(None)
    }

    /// Why `take_tx` would refuse a transaction; `None` if it would add it. Nothing changes.
    ///
    /// Fails only with `Fault::Memory`, and never if a check that needs no memory speaks against
    /// the transaction.
    pub fn judge_tx(&self, tx: Shared<Tx>) -> Result<Option<Fault>, Fault>
        ensures judged { IfOk result (λ refused. JudgesTx self.now tx refused) }
        ensures memory { IsOkUnless result Memory }
        ensures unpaid { result ≡ Err Memory → IsUntold tx }
    {
        let ledger = self.chain.ledger();
        match Candidate::new(self.alloc, tx) {
            Ok(candidate) => Ok(self.pool.refusal(ledger, &candidate)),
            Err(fault) => told(fault),
        }
    }

    /// The value in satoshis of an output that is unspent after the mempool's transactions; `None`
    /// if it isn't.
    pub fn value(&self, point: &OutPoint) -> Option<i64>
        ensures { IsPooledValue self.now point.now result }
    {
        self.pool.value(self.chain.ledger(), point)
    }

    /// Takes a block into the chain. Returns why it was refused, if it was, with a locator if its
    /// parent isn't known.
    ///
    /// `Chain::accept_block` lists the refusals, and which of them mark the block bad in the header
    /// tree. No refusal changes the mempool or the announcers. A header that the chain refuses is
    /// told before anything is worked out for the mempool, so it costs as much however long the
    /// chain is and whatever the mempool holds.
    ///
    /// If the block becomes the tip, the mempool is rebuilt: the transactions of disconnected
    /// blocks come first, then those that were in it, and each is kept if it still applies. The
    /// connection that gave the block, if one is named, becomes the last announcer.
    ///
    /// Fails only with `Fault::Memory`; the state is then unchanged. It doesn't fail if the chain
    /// refuses the block's header, except where the parent is missing: a locator is told then.
    pub fn take_block(
        &mut self,
        block: SoundBlock,
        from: Option<Connection>,
    ) -> Result<Taken, Fault>
        ensures taken { IfOk result (λ taken. TakesBlock self.old block from taken self.new) }
        ensures err { OnErr result (self.new ≡ self.old) }
        ensures memory { IsOkUnless result Memory }
        // The chain judges the header before memory is taken.
        ensures unpaid { result ≡ Err Memory → MayLackMemory self.old.tree block.header }
    {
        if let Some(fault) = fault_of_block(&self.chain, &block.block().header) {
            return self.refused(fault);
        }
        let locator = locator_of(&self.chain)?;
        let outlook = self.outlook_on(&block)?;
        let change = match self.chain.accept_block(block) {
            Ok(change) => change,
            Err(fault) => return refusal(self.alloc, fault, locator),
        };
        let taken = Taken {
            refused: None,
            locator: Locator::from_few(Vec::new(self.alloc)),
        };
        if change.on.as_slice().is_empty() {
            return Ok(taken);
        }
        follow(&mut self.pool, self.chain.ledger(), outlook);
        thank(&mut self.announcers, from);
        Ok(taken)
    }

    /// Takes headers into the chain, in order. A header that is already known is skipped. The first
    /// other refusal ends it (`Chain::accept_header` lists the reasons); the headers before it
    /// stay.
    ///
    /// Fails only with `Fault::Memory`, and never without headers; the state is then unchanged and
    /// none of the headers is kept.
    pub fn take_headers(&mut self, headers: &[Header]) -> Result<Heads, Fault>
        ensures taken { IfOk result (λ heads. TakesHeads self.old headers.now heads self.new) }
        ensures err { OnErr result (self.new ≡ self.old) }
        ensures memory { IsOkUnless result Memory }
        ensures none { headers.now ≡ [] → IsOk result }
    {
        if headers.is_empty() {
            return Ok(no_heads(self.alloc));
        }
        let locator = locator_of(&self.chain)?;
        let accepted = self.chain.accept_headers(headers)?;
        Ok(Heads {
            refused: accepted.refused,
            lack: lacking(&self.chain, accepted.met),
            locator: told_locator(self.alloc, accepted.refused, locator),
        })
    }

    /// The chain's block locator if the refusal is `Fault::NoParent`, else an empty one. Fails only
    /// with `Fault::Memory`, and for no other refusal.
    fn locator_after(&self, refused: Option<Fault>) -> Result<Locator, Fault>
        ensures exact { IfOk result
            (λ locator. locator ≡ locator_for refused (locator_of self.now.tree)) }
        ensures memory { IsOkUnless result Memory }
        ensures unpaid { result ≡ Err Memory → refused ≡ Some NoParent }
    {
        match refused {
            Some(fault) if fault == Fault::NoParent => locator_of(&self.chain),
            _ => Ok(Locator::from_few(Vec::new(self.alloc))),
        }
    }

    /// The outcome of a block whose header the chain refuses. Fails only with `Fault::Memory`, and
    /// only if the parent is missing.
    fn refused(&self, fault: Fault) -> Result<Taken, Fault>
        ensures told { IfOk result
            (λ taken. (taken.refused ≡ Some fault)
            × (taken.locator ≡ locator_for (Some fault) (locator_of self.now.tree))) }
        ensures memory { IsOkUnless result Memory }
        ensures unpaid { result ≡ Err Memory → fault ≡ NoParent }
    {
        let refused = Some(fault);
        Ok(Taken {
            refused,
            locator: self.locator_after(refused)?,
        })
    }

    /// The mempool's outlook for a block. It is `None` if the block can't become the tip, because
    /// its parent isn't known or is below the tip. Fails only with `Fault::Memory`.
    fn outlook_on(&self, block: &SoundBlock) -> Result<Option<Outlook>, Fault>
        ensures outlook { IfOk result
            (λ outlook. MatchOption outlook (¬ MayLead self.now.tree block.now.header.prev)
            (IsOutlookOn self.now block.now)) }
        ensures memory { IsOkUnless result Memory }
    {
        let parent = &block.block().header.prev;
        let Some(height) = self.chain.height(parent) else {
            return Ok(None);
        };
        if height < self.chain.tip_height() {
            return Ok(None);
        }
        let first = self.put_off_for(parent)?;
        if first.as_slice().is_empty() && *parent == self.chain.tip() {
            if let Some(outlook) = self.outlook_on_tip(block)? {
                return Ok(Some(outlook));
            }
        }
        Ok(Some(Outlook::Folds(self.pool.refolding(first)?)))
    }

    /// The mempool's outlook for a block on the tip, which disconnects no transactions. `None` if
    /// only rebuilding the mempool tells. Fails only with `Fault::Memory`.
    fn outlook_on_tip(&self, block: &SoundBlock) -> Result<Option<Outlook>, Fault>
        requires on { block.now.header.prev ≡ best self.now.tree }
        requires above { txs_above self.now.tree block.now.header.prev ≡ [] }
        ensures outlook { IfOk result
            (λ outlook. IfSome outlook (IsOutlookOn self.now block.now)) }
        ensures memory { IsOkUnless result Memory }
    {
        let ledger = self.chain.ledger();
        if self.pool.is_apart_from(block) {
            stays_behind_others(&self.pool, ledger);
            return Ok(Some(Outlook::Stays));
        }
        match self.pool.thinning(block)? {
            Some(plan) => Ok(Some(Outlook::Thins(plan))),
            None => Ok(None),
        }
    }

    /// The transactions, without coinbases, of the active chain's blocks above its fork point with
    /// the parent's branch, lowest block first. Fails only with `Fault::Memory`.
    fn put_off_for(&self, parent: &Hash256) -> Result<Vec<Candidate>, Fault>
        ensures first { IfOk result (λ first. first.items ≡ txs_above self.now.tree parent.now) }
        ensures memory { IsOkUnless result Memory }
    {
        kept_meet_rules(&self.chain);
        let headers = self.chain.path(parent)?;
        let mut first = Vec::new(self.alloc);
        for header in headers.as_slice() {
            push_candidates(&mut first, self.chain.block(&header.hash()))?;
        }
        Ok(first)
    }
}
