ghost use Rattle.std.specs.Prelude.{◌≡◌, ◌≢◌, ◌↔◌, ◌⊎◌, ◌^◌, ◌-◌, ◌<◌, ◌≤◌, List, [], None, Option, IfErr, IfOk, IsErrOf, IsOkUnless, OnErr, OnOk, length};
ghost use Rattle.cb_base.specs.declared.fault.Fault.TheVariants.{JournalFull, Memory, NoMore};
ghost use Rattle.cb_hall.specs.declared.answer.Answer.{Answer};
ghost use Rattle.cb_hall.specs.declared.entry.Entry.{Entry};
ghost use Rattle.cb_hall.specs.declared.entry.Entry.TheVariants as entries;
ghost use Rattle.cb_hall.specs.Connections.{first_slots, latest_of, most_peers};
ghost use Rattle.cb_hall.specs.Journal.{IsBounded, Notes, new_journal};
ghost use Rattle.cb_hall.specs.Replica.{AreFit, IsFit, Leads};
ghost use Rattle.cb_state.specs.Mining.{CannotMine, IsMined};
ghost use Rattle.cb_hall.specs.Badge.{AreBadges, fresh_badge, marked};
ghost use Rattle.cb_hall.specs.Hall.{Grants, Grows, HasHistory, IsFull, NotesAll, Submitted, look_of, latest_connection, next_connection};

use crate::answer::Answer;
use crate::badge::{Badge, first_badges};
use crate::connections::Connections;
use crate::entry::{Entry, Local};
use crate::journal::Journal;
use crate::question::Question;
use crate::replica::MOST_CALLS;
use crate::summary::Look;
use cb_base::{Fault, Seed};
use cb_block::SoundBlock;
use cb_state::{Connection, Relay};
use std::alloc::Global;
use std::marker::Model;

/// The hall: what Bitcoin Core keeps in ChainstateManager and CTxMemPool, and the log of all calls
/// that led there (the journal). Its model is the journal: the state before its entries, the
/// entries, and the state after them.
///
/// Peers are numbered from 0 to 1,023. Each peer has one connection after another; their
/// generations count from 1. Each granted call adds exactly one entry to the journal. A refused
/// call leaves the hall unchanged. If the journal has 1,000,000 entries, or they would count for
/// more than 64,000,000 bytes with the next one, the journal starts over and holds that entry
/// alone. After 2^62 calls no more are granted.
pub struct Hall {
    journal: Journal,
}

impl Model for Hall {
    ghost use Rattle.cb_hall.specs.Journal.{JournalState};

    ghost Value = { JournalState };

    ghost view = { λ hall. hall.journal };
}

impl Drop for Hall {
    fn drop(self) {
        let Hall { journal: _ } = self;
    }
}

impl Hall {
    /// Returns a hall without calls, and the badges of the first connections of the peers 0, 1, and
    /// so on. The hall's tables have this seed, which changes no result. Peers choose the keys of
    /// these tables, so a seed that no peer knows keeps a lookup short. Fails only with
    /// `Fault::Memory`.
    pub fn with_seed(alloc: Global, peers: u16, seed: Seed) -> Result<(Hall, Vec<Badge>), Fault>
        requires some { 1 ≤ peers }
        requires limit { peers ≤ most_peers }
        ensures hall { IfOk result (λ made. made.0 ≡ new_journal) }
        ensures badges { IfOk result (λ made. AreBadges peers made.1.items) }
        ensures memory { IsOkUnless result Memory }
    {
        let badges = first_badges(alloc, peers)?;
        let journal = Journal::with_seed(alloc, seed)?;
        Ok((Hall { journal }, badges))
    }

    /// The generation of a peer's latest connection.
    fn latest_generation(&self, peer: u16) -> u64
        ensures { result ≡ latest_of self.now.latest.connections peer }
    {
        self.connections().latest(peer)
    }

    /// Opens a peer's next connection and returns its badge. The peer's earlier connections are no
    /// longer asked to announce new blocks as compact blocks.
    ///
    /// Fails with the first of these that applies; the hall is then unchanged:
    /// - `Fault::NoMore` if the peer's latest connection has generation 2^64 - 1;
    /// - `Fault::JournalFull` if 2^62 calls were granted;
    /// - `Fault::Memory`.
    pub fn open(&mut self, peer: u16) -> Result<Badge, Fault>
        requires { peer < most_peers }
        ensures badge { IfOk result (λ badge. badge ≡ fresh_badge (next_connection self.old peer)) }
        ensures grows { OnOk result
            (Grows self.old (entries.Opened (next_connection self.old peer)) None self.new) }
        ensures no_more { IsErrOf result NoMore ↔
            (latest_of self.old.latest.connections peer ≡ 2 ^ 64 - 1) }
        ensures full { IsErrOf result JournalFull ↔
            ((latest_of self.old.latest.connections peer ≢ 2 ^ 64 - 1)
            × (2 ^ 62 ≤ self.old.latest.entries)) }
        ensures err { OnErr result (self.new ≡ self.old) }
        ensures kinds { IfErr result
            (λ fault. (fault ≡ NoMore) ⊎ (fault ≡ JournalFull) ⊎ (fault ≡ Memory)) }
    {
        let latest = self.latest_generation(peer);
        if latest == u64::MAX {
            return Err(Fault::NoMore);
        }
        let connection = Connection {
            peer,
            generation: latest + 1,
        };
        self.journal.note(Entry::Opened(connection))?;
        Ok(Badge::new(connection))
    }

    /// Answers a question of the badge's connection. The badge counts it. A kicked connection's
    /// answer is `Answer::Kicked`.
    ///
    /// Fails with:
    /// - `Fault::JournalFull` exactly if the hall granted 2^62 calls or the badge counts 2^62
    ///   questions; the badge is then marked, and the hall is unchanged;
    /// - `Fault::Memory`; hall and badge are then unchanged.
    pub fn call(&mut self, badge: &mut Badge, question: Question) -> Result<Answer, Fault>
        ensures ok { IfOk result (Grants self.old self.new badge.old badge.new question) }
        ensures full { IsErrOf result JournalFull ↔ IsFull self.old badge.old }
        ensures hall { OnErr result (self.new ≡ self.old) }
        ensures marks { IsErrOf result JournalFull → badge.new ≡ marked badge.old }
        ensures memory { IsErrOf result Memory → badge.new ≡ badge.old }
        ensures kinds { IfErr result (λ fault. (fault ≡ JournalFull) ⊎ (fault ≡ Memory)) }
    {
        if badge.count() >= MOST_CALLS || self.journal.latest().entries() >= MOST_CALLS {
            badge.mark();
            return Err(Fault::JournalFull);
        }
        let entry = Entry::Asked(badge.connection(), question);
        let Some(answer) = self.journal.note(entry)? else {
            unreachable!();
        };
        badge.grant();
        Ok(answer)
    }

    /// Kicks a peer's latest connection: each of its questions is answered with `Answer::Kicked`
    /// from then on.
    ///
    /// Fails with `Fault::JournalFull` exactly if 2^62 calls were granted, and with
    /// `Fault::Memory`. The hall is then unchanged.
    pub fn kick(&mut self, peer: u16) -> Result<(), Fault>
        requires { peer < most_peers }
        ensures ok { OnOk result
            (Grows self.old (entries.Kick (latest_connection self.old peer)) None self.new) }
        ensures full { IsErrOf result JournalFull ↔ (2 ^ 62 ≤ self.old.latest.entries) }
        ensures err { OnErr result (self.new ≡ self.old) }
        ensures kinds { IfErr result (λ fault. (fault ≡ JournalFull) ⊎ (fault ≡ Memory)) }
    {
        let generation = self.latest_generation(peer);
        self.journal
            .note(Entry::Kick(Connection { peer, generation }))?;
        Ok(())
    }

    /// Takes a transaction, a block or a header from the node's own user. The answer is
    /// `Answer::TxTaken`, `Answer::Taken` or `Answer::Heads`, and no announcer changes.
    ///
    /// Fails with `Fault::JournalFull` exactly if 2^62 calls were granted, and with
    /// `Fault::Memory`. The hall is then unchanged.
    pub fn submit(&mut self, local: Local) -> Result<Answer, Fault>
        ensures ok { IfOk result (Submitted self.old local self.new) }
        ensures full { IsErrOf result JournalFull ↔ (2 ^ 62 ≤ self.old.latest.entries) }
        ensures err { OnErr result (self.new ≡ self.old) }
        ensures kinds { IfErr result (λ fault. (fault ≡ JournalFull) ⊎ (fault ≡ Memory)) }
    {
        match self.journal.note(Entry::Submitted(local))? {
            Some(answer) => Ok(answer),
            None => unreachable!(),
        }
    }

    /// The calls since the journal last started over, in order.
    pub fn journal(&self) -> &[Entry]
        ensures entries { result.now ≡ self.now.entries }
        // The entries are the last of all calls since the start, and all calls led to the current
        // state.
        ensures past { (past : List Entry) × (answers : List Answer)
            × HasHistory self.now past answers }
        ensures bounded { IsBounded self.now.entries }
    {
        self.journal.entries()
    }

    /// The journal: the state before its entries, the entries, and the state after them.
    pub fn record(&self) -> &Journal
        ensures { result.now ≡ self.now }
    {
        &self.journal
    }

    /// What was known of all connections before the journal's entries. The counts are those of the
    /// questions granted before them.
    pub fn kept(&self) -> &Connections
        ensures { result.now ≡ self.now.base.connections }
    {
        self.journal.base().connections()
    }

    /// What is known of all connections now.
    pub fn connections(&self) -> &Connections
        ensures { result.now ≡ self.now.latest.connections }
    {
        self.journal.latest().connections()
    }

    /// The chain, the mempool and the announcers.
    pub(crate) fn state(&self) -> &Relay
        ensures { result.now ≡ self.now.latest.relay }
    {
        self.journal.latest().state()
    }

    /// The seed of the hall's tables. A session of it uses it too.
    pub fn seed(&self) -> Seed {
        self.state().chain().ledger().seed()
    }

    /// A summary of the current state.
    pub fn look(&self) -> Look
        ensures { result ≡ look_of self.now.latest.relay }
    {
        Look::at(self.state())
    }

    /// Mines a regtest block on the tip. It holds a coinbase with a mark, and then the mempool's
    /// transactions from the first one on, as many as fit. Its header has the least nonce that
    /// meets its target. The hall doesn't change.
    ///
    /// Fails with:
    /// - `Fault::BadWork` if no nonce meets the target;
    /// - `Fault::Mutated` if two neighbours in the Merkle tree are equal (CVE-2012-2459);
    /// - `Fault::Memory`.
    pub fn mine(&self, mark: u8) -> Result<SoundBlock, Fault>
        ensures mined { IfOk result (λ block. IsMined self.now.latest.relay mark block) }
        ensures err { IfErr result
            (λ fault. (fault ≡ Memory) ⊎ CannotMine self.now.latest.relay mark fault) }
    {
        self.state().mine(mark)
    }

    /// Takes a checkpoint: the current state is kept and the journal's entries are dropped. Fails
    /// only with `Fault::Memory`; the hall is then unchanged.
    pub fn checkpoint(&mut self) -> Result<(), Fault>
        ensures ok { OnOk result
            (self.new ≡ record { base = self.old.latest; entries = []; latest = self.old.latest }) }
        ensures past { OnOk result
            ((past : List Entry) (answers : List Answer) → HasHistory self.old past answers →
            HasHistory self.new past answers) }
        ensures err { OnErr result (self.new ≡ self.old) }
        ensures memory { IsOkUnless result Memory }
    {
        self.journal.checkpoint()
    }

    /// Replays the journal from the state before its entries. Returns an equal hall, and the
    /// answers to the questions among the entries, in order. Fails only with `Fault::Memory`.
    pub fn again(&self) -> Result<(Hall, Vec<Answer>), Fault>
        ensures same { IfOk result (λ made. made.0 ≡ self.now) }
        ensures answers { IfOk result
            (λ made. Leads self.now.base self.now.entries made.1.items self.now.latest) }
        ensures memory { IsOkUnless result Memory }
    {
        let (journal, answers) = self.journal.again()?;
        Ok((Hall { journal }, answers))
    }

    /// Returns the hall that these calls lead to: a new journal notes them one after another. Each
    /// call must be one that can come after those before it. The hall's tables have this seed,
    /// which changes no result.
    ///
    /// Fails with the first of these that applies:
    /// - `Fault::JournalFull` if there are more than 2^62 calls;
    /// - `Fault::Memory`.
    pub fn replay_with_seed(alloc: Global, calls: &[Entry], seed: Seed) -> Result<Hall, Fault>
        requires { AreFit first_slots calls.now }
        ensures past { IfOk result
            (λ hall. (answers : List Answer) × HasHistory hall calls.now answers) }
        // This fixes the state before the entries, the entries and the latest state.
        ensures notes { IfOk result (λ hall. NotesAll new_journal calls.now hall) }
        ensures full { IsErrOf result JournalFull ↔ (2 ^ 62 < length calls.now) }
        ensures kinds { IfErr result (λ fault. (fault ≡ JournalFull) ⊎ (fault ≡ Memory)) }
    {
        if calls.len() as u64 > MOST_CALLS {
            return Err(Fault::JournalFull);
        }
        let mut journal = Journal::with_seed(alloc, seed)?;
        for call in calls {
            play(alloc, &mut journal, call)?;
        }
        Ok(Hall { journal })
    }
}

/// Appends a copy of a call to the journal.
fn play(alloc: Global, journal: &mut Journal, call: &Entry) -> Result<(), Fault>
    requires { IsFit journal.old.latest.connections call.now }
    ensures ok { OnOk result
        ((told : Option Answer) × Notes journal.old call.now told journal.new) }
    ensures full { IsErrOf result JournalFull → 2 ^ 62 ≤ journal.old.latest.entries }
    ensures kinds { IfErr result (λ fault. (fault ≡ JournalFull) ⊎ (fault ≡ Memory)) }
{
    journal.note(call.copy(alloc)?)?;
    Ok(())
}
