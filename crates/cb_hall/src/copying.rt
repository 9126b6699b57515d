ghost use Rattle.std.specs.Prelude.{◌≡◌, IfOk, IsOk, IsOkUnless, IsTrue};
ghost use Rattle.cb_base.specs.declared.fault.Fault.TheVariants.{Memory};
ghost use Rattle.cb_hall.specs.Copying.{is_plain_entry, is_plain_question};

use crate::entry::{Entry, Local};
use crate::question::{GivenBlock, Question, Request};
use cb_base::Fault;
use std::alloc::Global;

impl GivenBlock {
    /// A copy that shares the block. Fails only with `Fault::Memory`.
    pub fn copy(&self) -> Result<GivenBlock, Fault>
        ensures same { IfOk result (λ copy. copy ≡ self.now) }
        ensures memory { IsOkUnless result Memory }
    {
        Ok(GivenBlock {
            block: self.block.copy()?,
            capable: self.capable,
        })
    }
}

impl Request {
    /// A copy. Fails only with `Fault::Memory`.
    pub fn copy(&self, alloc: Global) -> Result<Request, Fault>
        ensures same { IfOk result (λ copy. copy ≡ self.now) }
        ensures memory { IsOkUnless result Memory }
    {
        match self {
            Request::Items(entries) => Ok(Request::Items(entries.copy(alloc)?)),
            Request::After(locator, stop) => Ok(Request::After(locator.copy(alloc)?, *stop)),
            Request::Places(hash, differences) => {
                Ok(Request::Places(*hash, differences.copy(alloc)?))
            }
        }
    }
}

impl Question {
    /// A copy. Transactions, blocks and short ids are shared.
    ///
    /// Fails only with `Fault::Memory`. `Admit`, `Locator` and `News` need no memory and never
    /// fail.
    pub fn copy(&self, alloc: Global) -> Result<Question, Fault>
        ensures same { IfOk result (λ copy. copy ≡ self.now) }
        ensures memory { IsOkUnless result Memory }
        ensures unpaid { IsTrue (is_plain_question self.now) → IsOk result }
    {
        match self {
            Question::Admit => Ok(Question::Admit),
            Question::Headers(headers) => Ok(Question::Headers(headers.copy(alloc)?)),
            Question::Locator => Ok(Question::Locator),
            Question::Want(entries) => Ok(Question::Want(entries.copy(alloc)?)),
            Question::GiveTx(tx) => Ok(Question::GiveTx(tx.clone()?)),
            Question::GiveBlock(given) => Ok(Question::GiveBlock(given.copy()?)),
            Question::Serve(request) => Ok(Question::Serve(request.copy(alloc)?)),
            Question::News(told) => Ok(Question::News(*told)),
            Question::Match(sought) => Ok(Question::Match(sought.clone()?)),
        }
    }
}

impl Local {
    /// A copy that shares the transaction or block. Fails only with `Fault::Memory`.
    pub fn copy(&self) -> Result<Local, Fault>
        ensures same { IfOk result (λ copy. copy ≡ self.now) }
        ensures memory { IsOkUnless result Memory }
    {
        match self {
            Local::Tx(tx) => Ok(Local::Tx(tx.clone()?)),
            Local::Block(block) => Ok(Local::Block(block.copy()?)),
            Local::Header(header) => Ok(Local::Header(*header)),
        }
    }
}

impl Entry {
    /// A copy. Transactions, blocks and short ids are shared.
    ///
    /// Fails only with `Fault::Memory`. `Kick`, `Opened` and the questions `Admit`, `Locator` and
    /// `News` need no memory and never fail.
    pub fn copy(&self, alloc: Global) -> Result<Entry, Fault>
        ensures same { IfOk result (λ copy. copy ≡ self.now) }
        ensures memory { IsOkUnless result Memory }
        ensures unpaid { IsTrue (is_plain_entry self.now) → IsOk result }
    {
        match self {
            Entry::Asked(connection, question) => {
                Ok(Entry::Asked(*connection, question.copy(alloc)?))
            }
            Entry::Kick(connection) => Ok(Entry::Kick(*connection)),
            Entry::Opened(connection) => Ok(Entry::Opened(*connection)),
            Entry::Submitted(local) => Ok(Entry::Submitted(local.copy()?)),
        }
    }
}

/// A copy of the calls, in order. Fails only with `Fault::Memory`.
pub(crate) fn copy_entries(alloc: Global, entries: &[Entry]) -> Result<Vec<Entry>, Fault>
    ensures same { IfOk result (λ copies. copies.items ≡ entries.now) }
    ensures memory { IsOkUnless result Memory }
{
    let mut copies = Vec::with_capacity(alloc, entries.len())?;
    for entry in entries {
        copies.push(entry.copy(alloc)?)?;
    }
    Ok(copies)
}
