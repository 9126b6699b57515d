ghost use Rattle.std.specs.Prelude.{◌≡◌, ℕ, ◌<◌, ◌≤◌, ◌++◌, List, [], length, drop, IfOk, IsOkUnless, OnErr, IsOk, Err, Some, None};
ghost use Rattle.cb_base.specs.declared.fault.Fault.{Fault};
ghost use Rattle.cb_base.specs.declared.fault.Fault.TheVariants.{Memory};
ghost use Rattle.cb_wire.specs.declared.item.Item.{Item};
ghost use Rattle.cb_wire.specs.Stream.{Stream};
ghost use Rattle.cb_wire.specs.declared.envelope.Front.TheVariants.{Partial};
ghost use Rattle.cb_wire.specs.Envelope.{front_at};

use crate::envelope::{Front, HEADER_LEN, front_of, item_of};
use crate::item::Item;
use crate::payload_hashes::PayloadHashes;
use bytes::BytesMut;
use cb_base::Fault;
use std::alloc::Global;
use std::marker::Model;

/// What one piece of a stream yields.
#[derive(Drop)]
pub struct Fed {
    /// The items that this piece completes, in order.
    pub items: Vec<Item>,
    /// The fault that ends the stream, if it has one: `BadMagic` or `Oversize`.
    pub fault: Option<Fault>,
}

/// Joins the pieces of a stream and cuts them into items, one for each envelope.
///
/// For the prover its value is the bytes after the last whole envelope, and the fault of the
/// stream.
#[derive(Drop)]
pub struct Assembler {
    alloc: Global,
    rest: BytesMut,
    fault: Option<Fault>,
}

impl Model for Assembler {
    ghost use Rattle.cb_wire.specs.Stream.{Assembled, IsSettled};

    ghost Value = { Assembled };

    ghost view = { λ assembler. record { rest = assembler.rest.items; fault = assembler.fault } };

    ghost invariant = { λ assembler. IsSettled assembler.rest.items assembler.fault };
}

impl Assembler {
    ghost use Rattle.cb_wire.specs.Stream.{Assembled};

    /// An assembler at the beginning of a stream.
    pub fn new(alloc: Global) -> Assembler
        ensures { result ≡ record { rest = []; fault = None } }
    {
        Assembler {
            alloc,
            rest: BytesMut::new(alloc),
            fault: None,
        }
    }

    /// The number of bytes after the last whole envelope. It is 0 after a fault of the stream.
    pub fn rest_len(&self) -> usize
        ensures { result ≡ length self.now.rest }
    {
        self.rest.len()
    }

    /// Takes the next piece of the stream and returns the items that it completes.
    ///
    /// Fails only with `Fault::Memory`; the assembler is then unchanged, and the piece can be fed
    /// again. `BadMagic` or `Oversize` ends the stream and is told in `Fed::fault`. After that,
    /// each piece yields no item and the same fault, and allocates nothing. An empty piece
    /// allocates nothing either.
    pub fn feed(&mut self, piece: &[u8]) -> Result<Fed, Fault>
        // If the bytes fed before spell the items so far, then those bytes and this piece spell the
        // items so far and the new ones. So the cuts between pieces don't matter.
        ensures stream { IfOk result (λ fed. (bytes : List ℕ) (items : List Item) →
            Stream bytes items self.old.rest self.old.fault →
            Stream (bytes ++ piece.now) (items ++ fed.items.items) self.new.rest self.new.fault) }
        ensures fault { IfOk result (λ fed. fed.fault ≡ self.new.fault) }
        ensures broken { (why : Fault) → self.old.fault ≡ Some why → IsOk result }
        ensures memory { IsOkUnless result Memory }
        ensures err { OnErr result (self.new ≡ self.old) }
        // An empty piece allocates nothing.
        ensures paid { result ≡ Err Memory → 0 < length piece.now }
    {
        if self.fault.is_some() {
            return Ok(Fed {
                items: Vec::new(self.alloc),
                fault: self.fault,
            });
        }
        let kept = self.rest.len();
        self.rest.extend_from_slice(piece)?;
        match cut_items(self.alloc, self.rest.as_slice()) {
            Ok(Cut { items, used, fault }) => {
                cut_front(&mut self.rest, used);
                self.fault = fault;
                Ok(Fed { items, fault })
            }
            Err(fault) => {
                self.rest.truncate(kept);
                Err(fault)
            }
        }
    }
}

/// The part of a buffer that is done: its whole envelopes, or all of it if the stream has a fault.
#[derive(Drop)]
struct Cut {
    items: Vec<Item>,
    used: usize,
    fault: Option<Fault>,
}

/// Cuts the whole envelopes off the front. Fails only with `Fault::Memory`, and never while there
/// are too few bytes for an envelope.
fn cut_items(alloc: Global, bytes: &[u8]) -> Result<Cut, Fault>
    ensures stream { IfOk result
        (λ cut. Stream bytes.now cut.items.items (drop cut.used bytes.now) cut.fault) }
    ensures within { IfOk result (λ cut. cut.used ≤ length bytes.now) }
    ensures memory { IsOkUnless result Memory }
    ensures unpaid { front_at bytes.now ≡ Partial → IsOk result }
{
    let mut items = Vec::with_capacity(alloc, count_whole(bytes))?;
    let mut hashes = PayloadHashes::new(alloc);
    let mut rest = bytes;
    loop {
        match front_of(rest) {
            Front::Whole(size) => {
                let hash = hashes.next(rest, size)?;
                items.push(item_of(alloc, rest, size, &hash)?)?;
                let (_, after) = rest.split_at(HEADER_LEN + size);
                rest = after;
            }
            Front::Partial => {
                let used = bytes.len() - rest.len();
                return Ok(Cut {
                    items,
                    used,
                    fault: None,
                });
            }
            Front::Broken(fault) => {
                let used = bytes.len();
                return Ok(Cut {
                    items,
                    used,
                    fault: Some(fault),
                });
            }
        }
    }
}

/// The number of whole envelopes at the front, so that one allocation holds all their items.
fn count_whole(bytes: &[u8]) -> usize
    ensures { front_at bytes.now ≡ Partial → result ≡ 0 }
{
    let mut count = 0usize;
    let mut rest = bytes;
    while let Front::Whole(size) = front_of(rest) {
        count = count.saturating_add(1);
        let (_, after) = rest.split_at(HEADER_LEN + size);
        rest = after;
    }
    count
}

/// Drops the first n bytes. No byte is moved. If no byte is left, the buffer can be filled from its
/// start again.
fn cut_front(bytes: &mut BytesMut, n: usize)
    requires { n ≤ length bytes.old.items }
    ensures { bytes.new.items ≡ drop n bytes.old.items }
{
    if n == bytes.len() {
        bytes.clear();
    } else {
        bytes.advance(n);
    }
}
