ghost use Rattle.std.specs.Prelude.{◌≡◌, ◌<◌, ◌↔◌, false, length, OnOk, OnErr, IsTrue, IsOkUnless};
ghost use Rattle.cb_base.specs.declared.fault.Fault.TheVariants.{Memory};
ghost use Rattle.cb_crew.specs.CrewModel.{is_end, is_open};
ghost use Rattle.cb_crew.specs.Line.{MayFollow, connections, empty_line, line_put, line_taken};

use crate::act::Mark;
use cb_base::Fault;
use std::alloc::Global;
use std::marker::Model;

/// How many connections a peer may have, one after another.
const MOST_CONNECTIONS: u16 = 256;

/// A peer's inbox with its whole history: all marks that were ever put, and how many of them were
/// taken.
#[derive(Drop)]
pub struct InboxModel {
    marks: Vec<Mark>,
    taken: usize,
    ended: bool,
    connections: u16,
}

impl Model for InboxModel {
    ghost use Rattle.std.specs.Prelude.{◌≡◌, ◌≤◌, take, drop, vec_len};
    ghost use Rattle.cb_crew.specs.declared.act.Mark.{Mark};
    ghost use Rattle.cb_crew.specs.CrewModel.{is_open};
    ghost use Rattle.cb_crew.specs.Line.{Line};
    ghost use Rattle.cb_crew.specs.Line as line;

    ghost Value = { Line Mark };

    ghost view = { λ a.
        record {
          queued = a.marks.items;
          inbox = drop a.taken a.marks.items;
          taken = take a.taken a.marks.items;
          ended = a.ended;
        } };

    ghost invariant = { λ a. (a.taken ≤ vec_len a.marks)
        × (a.connections ≡ line.connections is_open a.marks.items) × (a.connections ≤ 256) };
}

impl InboxModel {
    /// An inbox without any mark. It allocates nothing.
    pub fn new(alloc: Global) -> InboxModel
        ensures { result ≡ empty_line }
    {
        InboxModel {
            marks: Vec::new(alloc),
            taken: 0,
            ended: false,
            connections: 1,
        }
    }

    /// All marks that were put, in order.
    pub fn queued(&self) -> &[Mark]
        ensures { result.now ≡ self.now.queued }
    {
        self.marks.as_slice()
    }

    /// The marks that weren't taken yet, the front first.
    pub fn waiting(&self) -> &[Mark]
        ensures { result.now ≡ self.now.inbox }
    {
        &self.marks.as_slice()[self.taken..]
    }

    /// All marks that were taken, in order.
    pub fn taken(&self) -> &[Mark]
        ensures { result.now ≡ self.now.taken }
    {
        &self.marks.as_slice()[..self.taken]
    }

    /// Whether fewer marks than `capacity` wait in the inbox.
    pub fn has_room(&self, capacity: usize) -> bool
        ensures { IsTrue result ↔ (length self.now.inbox < capacity) }
    {
        self.marks.len() - self.taken < capacity
    }

    /// Whether the marks before allow this mark to come next. Room in the inbox isn't looked at.
    pub fn may_follow(&self, mark: Mark) -> bool
        ensures { IsTrue result ↔ MayFollow is_open self.now mark }
    {
        match mark {
            Mark::Open => self.ended && self.connections < MOST_CONNECTIONS,
            Mark::Item(_) | Mark::End => !self.ended,
        }
    }

    /// Whether no mark waits in the inbox.
    pub fn is_empty(&self) -> bool
        ensures { IsTrue result ↔ (length self.now.inbox ≡ 0) }
    {
        self.taken == self.marks.len()
    }

    /// Puts a mark at the back. Fails only with `Fault::Memory`; the inbox is then unchanged.
    pub fn put(&mut self, mark: Mark) -> Result<(), Fault>
        requires { MayFollow is_open self.old mark }
        ensures ok { OnOk result (self.new ≡ line_put is_end self.old mark) }
        ensures memory { IsOkUnless result Memory }
        ensures err { OnErr result (self.new ≡ self.old) }
    {
        self.marks.push(mark)?;
        self.ended = matches!(mark, Mark::End);
        if matches!(mark, Mark::Open) {
            self.connections += 1;
        }
        Ok(())
    }

    /// Takes the mark at the front.
    pub fn take(&mut self)
        requires { 0 < length self.old.inbox }
        ensures { self.new ≡ line_taken self.old }
    {
        self.taken += 1;
    }
}
