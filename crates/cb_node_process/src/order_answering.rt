//! What a process answers to orders.
ghost use Rattle.std.specs.Prelude.{◌≡◌, ◌≢◌, ⊤, IfErr, IfOk};
ghost use Rattle.cb_control.specs.declared.order.Order.TheVariants.{Restart};
ghost use Rattle.cb_control.specs.declared.refusal.Refusal.TheVariants.{Unreadable};
ghost use Rattle.cb_control.specs.Answering.{CanTell};
ghost use Rattle.cb_node_process.specs.Telling.{Responds, Suits, TellsAudit};

use crate::reading::Broken;
use cb_base::Hash256;
use cb_control::{BlockReport, Deed, Order, Refusal, Reply};
use cb_driver::{perform, refusal_of, tip_of};
use cb_node::NodeFault;
use cb_process::{Process, ProcessHost};
use log::Log;

/// What comes of an order, or of a moment in which none came.
#[derive(Drop)]
pub enum LineOutcome {
    /// This reply is told.
    Reply(Reply),
    /// The same, but an audit said no, or a node that was started anew lacks the chain, the mempool
    /// or the address of the one before, which the exit status tells.
    Failed(Reply),
    /// Nothing is told now: no line came, or a dial goes on, whose end is told.
    Silence,
    /// The process ends, and its audit is the answer. Why standard input can't be read any more, if
    /// that is why.
    End(Option<Broken>),
}

/// Does what an order says. Fails with why it is refused.
#[tactic(auto, using(crate::proofs::Printing::can_do, crate::proofs::Printing::refuses, crate::proofs::Printing::node_refuses, cb_process::proofs::Refusing::memory_is_known))]
pub fn obey<R: ProcessHost, L: Log>(
    process: &mut Process<R>,
    order: Order,
    log: &L,
) -> Result<LineOutcome, Refusal>
    ensures told { IfOk result (λ response. Responds order response) }
    ensures refused { IfErr result (λ refusal. Suits ⊤ order (Reply.Refused refusal)) }
{
    match order {
        Order::Do(deed) => Ok(LineOutcome::Reply(do_deed(process, deed, log)?)),
        Order::Tip => Ok(LineOutcome::Reply(Reply::Tip(tip_of(process.node())))),
        Order::Block(hash) => Ok(LineOutcome::Reply(Reply::Block(look_at(process, hash)?))),
        Order::Pool => {
            let txids = process.node().pool().map_err(|fault| refusal_of(fault))?;
            Ok(LineOutcome::Reply(Reply::Pool(txids)))
        }
        Order::Peers => {
            let peers = process
                .peer_reports()
                .map_err(|fault| refusal_of(NodeFault::from(fault)))?;
            Ok(LineOutcome::Reply(Reply::Peers(peers)))
        }
        Order::Connect(address) => {
            process.connect(address)?;
            Ok(LineOutcome::Silence)
        }
        Order::Disconnect(address) => {
            process.disconnect(address)?;
            Ok(LineOutcome::Reply(Reply::Disconnected(address)))
        }
        Order::Network(on) => {
            process.switch(on);
            Ok(LineOutcome::Reply(Reply::Network(on)))
        }
        Order::Stats => Ok(LineOutcome::Reply(Reply::Stats(process.stats()))),
        Order::Restart => restart(process, log).map_err(|fault| refusal_of(fault)),
        Order::Quit => Ok(LineOutcome::End(None)),
    }
}

/// Ends the node, audits it, and starts another one over the same chain and mempool, as
/// `Process::renew` does and with the same errors.
#[tactic(auto, using(crate::proofs::Printing::restarts_well, crate::proofs::Printing::restarts_ill))]
fn restart<R: ProcessHost, L: Log>(
    process: &mut Process<R>,
    log: &L,
) -> Result<LineOutcome, NodeFault>
    ensures told { IfOk result (λ response. Responds Restart response) }
    ensures audited { IfOk result (TellsAudit R process.old.node.crew) }
{
    let (end, verdict, well) = process.renew(log)?;
    drop(end);
    let reply = Reply::Restarted(verdict, tip_of(process.node()));
    if well {
        Ok(LineOutcome::Reply(reply))
    } else {
        Ok(LineOutcome::Failed(reply))
    }
}

/// Does what scripts can ask for too. Only a connection that lasts is kicked.
#[tactic(auto, using(crate::proofs::Printing::node_refuses, cb_process::proofs::Refusing::no_slot_is_known))]
fn do_deed<R: ProcessHost, L: Log>(
    process: &mut Process<R>,
    deed: Deed,
    log: &L,
) -> Result<Reply, Refusal>
    ensures told { IfOk result (λ reply. CanTell deed reply) }
    ensures known { IfErr result (λ refusal. refusal ≢ Unreadable) }
{
    if !has_slot_of(process, &deed) {
        return Err(Refusal::NoSlot);
    }
    let moves_tip = may_move_tip(&deed);
    let done = perform(process.alloc(), process.node(), deed, process.mark(), true);
    if moves_tip {
        process.note_tip(log);
    }
    done.map_err(|fault| refusal_of(fault))
}

/// Whether a connection lasts in the slot that a deed names, if it names one.
fn has_slot_of<R: ProcessHost>(process: &Process<R>, deed: &Deed) -> bool {
    match deed {
        Deed::Kick(slot) => process
            .watched()
            .iter()
            .any(|watched| watched.slot == *slot),
        Deed::Tx(_) | Deed::Submit(_) | Deed::Mine(_) | Deed::Checkpoint => true,
    }
}

/// Whether a deed may give the chain another tip.
fn may_move_tip(deed: &Deed) -> bool {
    match deed {
        Deed::Submit(_) | Deed::Mine(_) => true,
        Deed::Tx(_) | Deed::Kick(_) | Deed::Checkpoint => false,
    }
}

/// What the chain has of a block.
#[tactic(auto, using(crate::proofs::Printing::unknown_is_known))]
fn look_at<R: ProcessHost>(process: &Process<R>, hash: Hash256) -> Result<BlockReport, Refusal>
    ensures same { IfOk result (λ block. block.hash ≡ hash) }
    ensures known { IfErr result (λ refusal. refusal ≢ Unreadable) }
{
    match process.node().block(&hash) {
        Some(look) => Ok(BlockReport {
            hash,
            height: look.height,
            txs: look.txs,
            best: look.best,
        }),
        None => Err(Refusal::UnknownBlock),
    }
}
