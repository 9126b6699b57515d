ghost use Rattle.std.specs.Prelude.{◌≡◌, IfOk, IsOkUnless, OnErr};
ghost use Rattle.cb_base.specs.declared.fault.Fault.TheVariants.{Memory};
ghost use Rattle.cb_hall.specs.Replies.{Answers, IsServed, Submits, giver};

use crate::answer::Answer;
use crate::entry::Local;
use crate::question::{GivenBlock, Question, Request};
use cb_base::Fault;
use cb_state::{Connection, Relay};
use cb_wire::HeaderList;

/// The connection that gave a block, if it knows compact blocks.
fn giver_of(connection: Connection, given: &GivenBlock) -> Option<Connection>
    ensures { result ≡ giver connection given.now }
{
    if given.capable {
        return Some(connection);
    }
    None
}

/// The answer to a request for data. Fails only with `Fault::Memory`.
fn served(state: &Relay, request: &Request) -> Result<Answer, Fault>
    ensures answers { IfOk result (λ answer. IsServed state.now request.now answer) }
    ensures memory { IsOkUnless result Memory }
{
    match request {
        Request::Items(entries) => Ok(Answer::Served(state.serve(entries)?)),
        Request::After(locator, stop) => {
            let headers = state.chain().after(locator.as_slice(), stop)?;
            Ok(Answer::Following(HeaderList::from_few(headers)))
        }
        Request::Places(hash, differences) => {
            let excerpt = state.serve_places(hash, differences.as_slice())?;
            Ok(Answer::Excerpt(excerpt))
        }
    }
}

/// Answers a question of a connection that wasn't kicked. Fails only with `Fault::Memory`; the
/// state is then unchanged.
pub(crate) fn reply(
    state: &mut Relay,
    connection: Connection,
    question: &Question,
) -> Result<Answer, Fault>
    ensures answers { IfOk result
        (λ answer. Answers state.old connection question.now answer state.new) }
    ensures err { OnErr result (state.new ≡ state.old) }
    ensures memory { IsOkUnless result Memory }
{
    match question {
        Question::Admit => Ok(Answer::Go),
        Question::Headers(headers) => {
            let heads = state.take_headers(headers.as_slice())?;
            Ok(Answer::Heads(heads))
        }
        Question::Locator => Ok(Answer::Locator(state.locator()?)),
        Question::Want(entries) => Ok(Answer::Need(state.want(entries)?)),
        Question::GiveTx(tx) => Ok(Answer::TxTaken(state.take_tx(tx.clone()?)?)),
        Question::GiveBlock(given) => {
            let block = given.block.copy()?;
            let from = giver_of(connection, given);
            Ok(Answer::Taken(state.take_block(block, from)?))
        }
        Question::Serve(request) => served(state, request),
        Question::News(told) => {
            let news = state.news(connection, told.tip, told.from, told.whole)?;
            Ok(Answer::News(news))
        }
        Question::Match(sought) => {
            let pairs = state.match_ids(&sought.header, sought.nonce, &sought.ids)?;
            Ok(Answer::Pairs(pairs))
        }
    }
}

/// Takes a transaction, a block or a header from the node's own user. Fails only with
/// `Fault::Memory`; the state is then unchanged.
pub(crate) fn submit(state: &mut Relay, local: &Local) -> Result<Answer, Fault>
    ensures answers { IfOk result (λ answer. Submits state.old local.now answer state.new) }
    ensures err { OnErr result (state.new ≡ state.old) }
    ensures memory { IsOkUnless result Memory }
{
    match local {
        Local::Tx(tx) => Ok(Answer::TxTaken(state.take_tx(tx.clone()?)?)),
        Local::Block(block) => Ok(Answer::Taken(state.take_block(block.copy()?, None)?)),
        Local::Header(header) => Ok(Answer::Heads(state.take_headers(&[*header])?)),
    }
}
