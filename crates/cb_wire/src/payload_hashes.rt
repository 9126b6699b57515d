//! The double hashes of the payloads in a stream. Their first bytes are the checksums.
ghost use Rattle.std.specs.Prelude.{◌≡◌, ◌+◌, ◌≤◌, [], ◌∷◌, length, take, drop, IfOk, IfSome, OnOk, IsOkUnless};
ghost use Rattle.cb_base.specs.declared.fault.Fault.TheVariants.{Memory};
ghost use Rattle.cb_base.specs.DoubleHash.{double_hash};
ghost use Rattle.cb_wire.specs.declared.envelope.Front.TheVariants.{Whole};
ghost use Rattle.cb_wire.specs.Envelope.{front_at};
ghost use Rattle.cb_wire.specs.Hashes.{Cuts, Foretells};

use crate::envelope::{Front, HEADER_LEN, front_of, payload_of};
use cb_base::{Fault, Hash256, dsha, dsha_four};
use std::alloc::Global;
use std::collections::VecDeque;
use std::marker::Model;

/// The most bytes of a payload that is hashed beside others, since it is copied for that. Four of
/// them are as long as one read.
const MOST_COPIED: usize = 16_384;

/// Hashes the payloads of a stream's envelopes, one after another. Where four whole envelopes
/// follow one another, their payloads are hashed side by side.
///
/// For the prover its value is the list of the hashes that were made beforehand.
#[derive(Drop)]
pub(crate) struct PayloadHashes {
    texts: Texts,
    made: VecDeque<Hash256>,
}

impl Model for PayloadHashes {
    ghost use Rattle.std.specs.Prelude.{List};
    ghost use Rattle.cb_base.specs.declared.hash.Hash256.{Hash256};

    ghost Value = { List Hash256 };

    ghost view = { λ hashes. hashes.made.items };
}

impl PayloadHashes {
    /// No hash is made beforehand. Allocates nothing.
    pub(crate) fn new(alloc: Global) -> PayloadHashes
        ensures { result ≡ [] }
    {
        PayloadHashes {
            texts: Texts::new(alloc),
            made: VecDeque::new(alloc),
        }
    }

    /// The hash of the payload at the front, which has `size` bytes. The hashes that were made
    /// beforehand are those of the envelopes that come next in these bytes.
    ///
    /// Fails only with `Fault::Memory`.
    pub(crate) fn next(&mut self, bytes: &[u8], size: usize) -> Result<Hash256, Fault>
        requires whole { front_at bytes.now ≡ Whole size }
        requires there { 24 + size ≤ length bytes.now }
        requires ahead { Foretells bytes.now self.old }
        ensures hash { IfOk result (λ hash. hash ≡ double_hash (take size (drop 24 bytes.now))) }
        ensures ahead { OnOk result (Foretells (drop (24 + size) bytes.now) self.new) }
        ensures memory { IsOkUnless result Memory }
    {
        if let Some(hash) = self.made.pop_front() {
            return Ok(hash);
        }
        let Some(four) = four_payloads(bytes) else {
            return Ok(dsha(payload_of(bytes, size)));
        };
        let [first, second, third, fourth] = self.texts.hashes(&four)?;
        self.made.push_back(second)?;
        self.made.push_back(third)?;
        self.made.push_back(fourth)?;
        Ok(first)
    }
}

/// The payloads of four envelopes that follow one another.
#[derive(Drop)]
struct FourPayloads<'a> {
    first: &'a [u8],
    second: &'a [u8],
    third: &'a [u8],
    fourth: &'a [u8],
}

/// The payloads of the four envelopes at the front, if these are whole and no payload is longer
/// than `MOST_COPIED`.
fn four_payloads(bytes: &[u8]) -> Option<FourPayloads<'_>>
    ensures { IfSome result (λ four. Foretells bytes.now
        (double_hash four.first.now ∷ double_hash four.second.now ∷ double_hash four.third.now
        ∷ double_hash four.fourth.now ∷ [])) }
{
    let (first, after_first) = short_payload(bytes)?;
    let (second, after_second) = short_payload(after_first)?;
    let (third, after_third) = short_payload(after_second)?;
    let (fourth, _) = short_payload(after_third)?;
    Some(FourPayloads {
        first,
        second,
        third,
        fourth,
    })
}

/// The payload of the envelope at the front and the bytes behind it, if the envelope is whole and
/// its payload isn't longer than `MOST_COPIED`.
fn short_payload(bytes: &[u8]) -> Option<(&[u8], &[u8])>
    ensures { IfSome result (λ cut. Cuts bytes.now cut.0.now cut.1.now) }
{
    let Front::Whole(size) = front_of(bytes) else {
        return None;
    };
    if size > MOST_COPIED {
        return None;
    }
    let (_, after) = bytes.split_at(HEADER_LEN + size);
    Some((payload_of(bytes, size), after))
}

/// Four buffers for payloads that are hashed side by side.
#[derive(Drop)]
struct Texts {
    first: Vec<u8>,
    second: Vec<u8>,
    third: Vec<u8>,
    fourth: Vec<u8>,
}

impl Texts {
    fn new(alloc: Global) -> Texts {
        Texts {
            first: Vec::new(alloc),
            second: Vec::new(alloc),
            third: Vec::new(alloc),
            fourth: Vec::new(alloc),
        }
    }

    /// The double hashes of four payloads. Fails only with `Fault::Memory`.
    fn hashes(&mut self, four: &FourPayloads<'_>) -> Result<[Hash256; 4], Fault>
        ensures hashes { IfOk result (λ hashes. hashes ≡ double_hash four.now.first.now
            ∷ double_hash four.now.second.now ∷ double_hash four.now.third.now
            ∷ double_hash four.now.fourth.now ∷ []) }
        ensures memory { IsOkUnless result Memory }
    {
        refill(&mut self.first, four.first)?;
        refill(&mut self.second, four.second)?;
        refill(&mut self.third, four.third)?;
        refill(&mut self.fourth, four.fourth)?;
        dsha_four(
            &mut self.first,
            &mut self.second,
            &mut self.third,
            &mut self.fourth,
        )
    }
}

/// Replaces what a buffer holds. Fails only with `Fault::Memory`.
fn refill(text: &mut Vec<u8>, bytes: &[u8]) -> Result<(), Fault>
    ensures ok { OnOk result (text.new.items ≡ bytes.now) }
    ensures memory { IsOkUnless result Memory }
{
    text.clear();
    text.extend_from_slice(bytes)?;
    Ok(())
}
