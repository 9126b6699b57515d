//! Of which connections a tick is due behind a new tip.
ghost use Rattle.std.specs.Prelude.{◌≡◌, ◌++◌, ◌∷◌, ◌<◌, ℕ, List, [], All, length, nat_eq, IfOk, IsOkUnless, OnOk, if◌then◌else◌};
ghost use Rattle.std.specs.List.{count_by};
ghost use Rattle.cb_base.specs.declared.fault.Fault.TheVariants.{Memory};
ghost use Rattle.cb_work.specs.declared.due.ToldTip.{ToldTip};
ghost use Rattle.cb_work.specs.Due.{due_places, is_due, is_due_as, places_where, told_by};

use crate::seen::told_word;
use cb_base::Fault;
use cb_trace::Trace;
use std::alloc::Global;

/// What a connection's peer was told of the tip.
#[derive(Clone, Copy, Debug, PartialEq, Eq)]
pub struct ToldTip {
    /// The tip that it was told last, as `tip_word` has it; 0 before it was told one, so before its
    /// handshake is done, and once the session is over.
    pub tip: u64,
    /// Whether it wants compact blocks unasked: high-bandwidth mode (BIP 152).
    pub high: bool,
}

impl ToldTip {
    /// What the peer of this session was told.
    pub(crate) fn by(trace: &Trace) -> ToldTip
        ensures { result ≡ told_by trace.now.session }
    {
        ToldTip {
            tip: told_word(trace.told_tip()),
            high: trace.peer().wants_high,
        }
    }

    /// Whether its peer is to be told of this tip now, and wants compact blocks unasked or not.
    fn is_due_as(&self, tip: u64, high: bool) -> bool
        ensures { result ≡ is_due_as tip high self.now }
    {
        self.tip != 0 && self.tip != tip && self.high == high
    }
}

/// The places in this list of the connections of which a tick is due behind this new tip: first of
/// those whose peers want compact blocks unasked, and then of the others, both in order.
///
/// Fails only with `Fault::Memory`.
pub fn due_places(alloc: Global, tip: u64, all: &[ToldTip]) -> Result<Vec<usize>, Fault>
    ensures places { IfOk result (λ places. places.items ≡ due_places tip all.now) }
    ensures memory { IsOkUnless result Memory }
{
    let mut places = Vec::new(alloc);
    put_places(&mut places, tip, true, all)?;
    put_places(&mut places, tip, false, all)?;
    Ok(places)
}

/// Puts the places of those that are due and want compact blocks unasked, or don't, behind others.
fn put_places(places: &mut Vec<usize>, tip: u64, high: bool, all: &[ToldTip]) -> Result<(), Fault>
    ensures places { OnOk result
        (places.new.items ≡ places.old.items ++ places_where (is_due_as tip high) 0 all.now) }
    ensures memory { IsOkUnless result Memory }
{
    for place in 0..all.len() {
        put_if(places, place, all[place].is_due_as(tip, high))?;
    }
    Ok(())
}

/// Puts this place behind others, if it is due.
fn put_if(places: &mut Vec<usize>, place: usize, due: bool) -> Result<(), Fault>
    ensures places { OnOk result
        (places.new.items ≡ places.old.items ++ (if due then place ∷ [] else [])) }
    ensures memory { IsOkUnless result Memory }
{
    if due {
        places.push(place)?;
    }
    Ok(())
}

/// Each connection that is due stands among the places once, and no other does.
pub fn each_due_stands_once()
    ensures once { (tip : ℕ) (before after : List ToldTip) (told : ToldTip) →
        count_by (nat_eq (length before)) (due_places tip (before ++ told ∷ after))
        ≡ (if is_due tip told then 1 else 0) }
    ensures within { (tip : ℕ) (all : List ToldTip) →
        All (λ place. place < length all) (due_places tip all) }
{}
