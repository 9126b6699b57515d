//! What holds of the blocks that a session downloads: laws of the definitions that the contracts
//! use.
//!
//! Each law is the contract of a function that does nothing.
ghost use Rattle.std.specs.Prelude.{◌≡◌, ◌≤◌, List, [], ◌++◌, true, false, drop, filter, length, not, take};
ghost use Rattle.cb_base.specs.declared.hash.Hash256.{Hash256};
ghost use Rattle.cb_peer_state.specs.Fetching.{AreDifferent, FetchState, IsFetch, IsReached, asks_now, fallen_back, has, is_due, is_fetched, leaves_out, once, taken_on, wanting, wanting_all, without};

use crate::fetch::Fetch;

/// At most 16 blocks are in flight and at most 2,000 are wanted, and no block is in flight twice or
/// wanted twice.
pub fn each_is_fetched_once(fetch: &Fetch)
    ensures flight { length fetch.now.flight ≤ 16 }
    ensures wanted { length fetch.now.wanted ≤ 2000 }
    ensures flight_once { AreDifferent fetch.now.flight }
    ensures wanted_once { AreDifferent fetch.now.wanted }
{
    // No effect when it runs: it tells the prover what the type keeps.
    let _ = &fetch.flight;
}

/// The same limits hold in every state that calls lead to, whatever a peer sends.
pub fn limits_hold()
    ensures { (fetch : FetchState) → IsReached fetch → IsFetch fetch }
{}

/// No block is requested twice at a time: a block in flight doesn't become wanted, new wanted
/// blocks don't change what is in flight, and it is time to request wanted blocks only when nothing
/// is in flight. The exception is a compact block that couldn't be rebuilt, which is requested
/// whole (`what_falls_back_is_asked_for`).
pub fn none_is_asked_for_twice()
    ensures same { (fetch : FetchState) (hash : Hash256) → has fetch.flight hash ≡ true →
        wanting fetch hash ≡ fetch }
    ensures flight { (fetch : FetchState) (hashes : List Hash256) →
        (wanting_all fetch hashes).flight ≡ fetch.flight }
    ensures due { (fetch : FetchState) → is_due fetch ≡ true → fetch.flight ≡ [] }
{}

/// A compact block that couldn't be rebuilt is requested whole now just if it is in flight
/// afterwards. Where it is in flight nothing changes, so no room is taken twice. All other blocks
/// stay in flight and wanted.
pub fn what_falls_back_is_asked_for()
    ensures asked { (fetch : FetchState) (hash : Hash256) →
        asks_now fetch hash ≡ has (fallen_back hash fetch).flight hash }
    ensures same { (fetch : FetchState) (hash : Hash256) → has fetch.flight hash ≡ true →
        fallen_back hash fetch ≡ fetch }
    ensures flight { (fetch : FetchState) (hash other : Hash256) → has fetch.flight other ≡ true →
        has (fallen_back hash fetch).flight other ≡ true }
    ensures wanted { (fetch : FetchState) (hash other : Hash256) → has fetch.wanted other ≡ true →
        has (fallen_back hash fetch).wanted other ≡ true }
{}

/// A missing block is left out only where 2,000 blocks are wanted. All others are in flight or
/// wanted. What was in flight stays so, and what was wanted and isn't listed stays so.
pub fn what_is_left_out_has_no_room()
    ensures full { (fetch : FetchState) (hashes : List Hash256) → length fetch.wanted ≤ 2000 →
        leaves_out (wanting_all fetch hashes) hashes ≡ true →
        length (wanting_all fetch hashes).wanted ≡ 2000 }
    ensures others { (fetch : FetchState) (hashes : List Hash256) (hash : Hash256) →
        leaves_out fetch hashes ≡ false → has hashes hash ≡ true → is_fetched fetch hash ≡ true }
    ensures stays { (fetch : FetchState) (hashes : List Hash256) (hash : Hash256) →
        has hashes hash ≡ false → is_fetched fetch hash ≡ true →
        is_fetched (wanting_all fetch hashes) hash ≡ true }
    ensures flight { (fetch : FetchState) (hashes : List Hash256) (hash : Hash256) →
        has fetch.flight hash ≡ true → has (wanting_all fetch hashes).flight hash ≡ true }
{}

/// Listed blocks are fetched in the order of the list, and so parents first: those that aren't in
/// flight are the last wanted ones, each once, also those that were wanted before. All other wanted
/// blocks stand before them, in their order. Only listed blocks that aren't in flight lose their
/// places.
pub fn what_is_listed_stands_last()
    ensures last { (fetch : FetchState) (hashes : List Hash256) → length fetch.wanted ≤ 2000 →
        (wanting_all fetch hashes).wanted
        ≡ take 2000 ((without fetch hashes).wanted
        ++ filter (λ hash. not (has fetch.flight hash)) (once hashes)) }
    ensures unlisted { (fetch : FetchState) (hashes : List Hash256) (hash : Hash256) →
        has hashes hash ≡ false → has (without fetch hashes).wanted hash ≡ has fetch.wanted hash }
    ensures flying { (fetch : FetchState) (hashes : List Hash256) (hash : Hash256) →
        has fetch.flight hash ≡ true →
        has (without fetch hashes).wanted hash ≡ has fetch.wanted hash }
    ensures others { (fetch : FetchState) (hashes : List Hash256) (hash : Hash256) →
        has hashes hash ≡ true → has fetch.flight hash ≡ false →
        has (without fetch hashes).wanted hash ≡ false }
    ensures all { (hashes : List Hash256) (hash : Hash256) →
        has (once hashes) hash ≡ has hashes hash }
{}

/// What is requested is what is needed: the first 16 different blocks are in flight, the next 2,000
/// are wanted, and every block in flight is one of the needed ones.
pub fn what_is_needed_is_fetched()
    ensures flight { (hashes : List Hash256) → (taken_on hashes).flight ≡ take 16 (once hashes) }
    ensures wanted { (hashes : List Hash256) →
        (taken_on hashes).wanted ≡ take 2000 (drop 16 (once hashes)) }
    ensures among { (hashes : List Hash256) (hash : Hash256) →
        has (taken_on hashes).flight hash ≡ true → has hashes hash ≡ true }
    ensures different { (hashes : List Hash256) → AreDifferent (once hashes) }
{}
