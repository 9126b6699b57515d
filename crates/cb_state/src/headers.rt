//! A header, and where it stands; headers in the order of acceptance.
ghost use Rattle.std.specs.Prelude.{◌≡◌, IfOk, IsOkUnless, drop, take};
ghost use Rattle.cb_base.specs.declared.fault.Fault.TheVariants.{Memory};
ghost use Rattle.cb_chain.specs.Laws.{accepted_headers, active_hashes};
ghost use Rattle.cb_state.specs.Headers.{IsHeaderLook, IsMedian, next_at};

use crate::blocks::{is_on_best, txs_in};
use cb_base::{Fault, Hash256};
use cb_block::Header;
use cb_chain::Chain;
use std::alloc::Global;

/// How many headers one call reads at most.
const MOST_READ: usize = 2_000;

/// A header that the chain has, and where it stands.
#[derive(Clone, Copy)]
pub struct HeaderLook {
    /// The header.
    pub header: Header,
    /// Its height; the genesis block has height 0.
    pub height: u32,
    /// Whether it is on the best chain.
    pub best: bool,
    /// The height of the best chain's tip.
    pub tip_height: u32,
    /// How many transactions its block has, if it is kept and not marked bad.
    pub txs: Option<usize>,
    /// The hash of the best chain's header on top of it, if it is on that and not the tip.
    pub next: Option<Hash256>,
    /// The median of the times of the last 11 headers up to it, or of fewer if there aren't so many
    /// (BIP 113).
    pub median_time: u32,
}

/// The header with this hash and where it stands; `None` if it isn't known.
pub fn header_look(chain: &Chain, hash: &Hash256) -> Option<HeaderLook>
    ensures { IsHeaderLook chain.now hash.now result }
{
    let header = *chain.header(hash)?;
    let height = chain.height(hash)?;
    let best = is_on_best(chain, hash);
    Some(HeaderLook {
        header,
        height,
        best,
        tip_height: chain.tip_height(),
        txs: txs_in(chain, hash),
        next: next_on_best(chain, best, height),
        median_time: median_time(chain, &header),
    })
}

/// The hash of the best chain's header above a height, where `best` is set.
fn next_on_best(chain: &Chain, best: bool, height: u32) -> Option<Hash256>
    ensures { result ≡ next_at (active_hashes chain.now) best height }
{
    if best {
        chain.at(height as usize + 1)
    } else {
        None
    }
}

/// The median of a header's time and those of at most 10 headers below it.
fn median_time(chain: &Chain, header: &Header) -> u32 {
    let mut times = [header.time; 11];
    let mut below = header.prev;
    let mut count = 1usize;
    for place in 1..11usize {
        let Some(older) = chain.header(&below) else {
            break;
        };
        times[place] = older.time;
        below = older.prev;
        count = place + 1;
    }
    median(&mut times[..count])
}

/// The median of times, the later of the two in the middle of an even number; 0 of none.
fn median(times: &mut [u32]) -> u32
    ensures { IsMedian times.old result }
{
    times.sort_unstable();
    match times.get(times.len() / 2) {
        Some(time) => *time,
        None => 0,
    }
}

/// The headers that were accepted, in the order of acceptance, from a place on, which is counted
/// from 0 without the genesis block's. At most 2,000. Fails only with `Fault::Memory`.
pub fn headers_from(alloc: Global, chain: &Chain, place: u32) -> Result<Vec<Header>, Fault>
    ensures exact { IfOk result
        (λ headers. headers.items ≡ take 2000 (drop place (accepted_headers chain.now))) }
    ensures memory { IsOkUnless result Memory }
{
    let mut headers = Vec::new(alloc);
    for step in 0..MOST_READ {
        match chain.accepted(place as usize + step) {
            Some(header) => headers.push(*header)?,
            None => break,
        }
    }
    Ok(headers)
}
