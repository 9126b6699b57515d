ghost use Rattle.std.specs.Prelude.{◌≡◌, ◌≤◌, ◌<◌, [], Some, true, false, fold, is_some, length, nat_lt, take, IfOk, IfSome, IsOk, IsOkUnless, OnErr, OnOk};
ghost use Rattle.std.specs.HashSet.{hasher_of};
ghost use Rattle.cb_base.specs.declared.fault.Fault.TheVariants.{Memory};
ghost use Rattle.cb_peer_state.specs.Fetching.{as_blocks, asks_now, block_in, blocks_in, fallen_back, has, idle, is_due, is_fetched, landed, leaves_out, request_of, requests_of, taken_on, taking_on, wanting, wanting_all, wants_none, with_flight, with_wanted, without};
ghost use Rattle.cb_peer_state.specs.Standing.{first_place, is_passed, place_of, stand_last};

use cb_base::{Fault, Hash256, Seed};
use cb_wire::{Entries, Inventory};
use indexmap::IndexSet;
use std::alloc::Global;
use std::collections::HashSet;
use std::marker::Model;

/// The largest number of blocks in flight. This limit is the program's own.
pub const MOST_IN_FLIGHT: usize = 16;

/// The largest number of wanted blocks, not counting those in flight. This limit is the program's
/// own.
pub const MOST_WANTED: usize = 2_000;

/// The blocks that a session downloads from its peer, by hash (Bitcoin's peer-to-peer protocol,
/// `getdata`). A block is wanted if it is queued for download: at most 2,000 are. A block is in
/// flight if it was requested and hasn't been received yet: at most 16 are. No block is in flight
/// twice, and none is wanted twice. A wanted block may also be in flight, where it had to be
/// requested whole (`fall_back`). Contracts see the two lists, in order.
pub struct Fetch {
    alloc: Global,
    pub(crate) flight: Vec<Hash256>,
    wanted: IndexSet<Hash256, Seed>,
}

impl Model for Fetch {
    ghost use Rattle.cb_peer_state.specs.Fetching.{FetchState, IsFetch};

    ghost Value = { FetchState };

    ghost view = { λ fetch. record { flight = fetch.flight.items; wanted = fetch.wanted.keys } };

    ghost invariant = { λ fetch. IsFetch
        (record { flight = fetch.flight.items; wanted = fetch.wanted.keys }) };
}

impl Drop for Fetch {
    fn drop(self) {
        let Fetch {
            alloc: _,
            flight: _,
            wanted: _,
        } = self;
    }
}

impl Fetch {
    /// Nothing is in flight, and nothing is wanted. The set of the wanted blocks has the fixed
    /// seed. Allocates nothing.
    pub fn new(alloc: Global) -> Fetch
        ensures { result ≡ idle }
    {
        Fetch::with_seed(alloc, Seed::fixed())
    }

    /// Nothing is in flight, and nothing is wanted. The set of the wanted blocks has this seed,
    /// which changes no result. Allocates nothing.
    pub fn with_seed(alloc: Global, seed: Seed) -> Fetch
        ensures { result ≡ idle }
    {
        Fetch {
            alloc,
            flight: Vec::new(alloc),
            wanted: IndexSet::with_hasher(alloc, seed),
        }
    }

    /// The seed of the set of the wanted blocks.
    fn seed(&self) -> Seed {
        *self.wanted.hasher()
    }

    /// Whether it is time to request more blocks: nothing is in flight, and something is wanted.
    pub fn is_due(&self) -> bool
        ensures { result ≡ is_due self.now }
    {
        self.flight.is_empty() && !self.wanted.is_empty()
    }

    /// Whether nothing is wanted.
    pub fn wants_none(&self) -> bool
        ensures { result ≡ wants_none self.now }
    {
        self.wanted.is_empty()
    }

    /// The hashes of the blocks in flight, in the order in which they are requested, at most 16.
    pub fn flight(&self) -> &[Hash256]
        ensures same { result.now ≡ self.now.flight }
        ensures few { length result.now ≤ 16 }
    {
        self.flight.as_slice()
    }

    /// Notes that a block was received: it is no longer in flight. A block that isn't in flight
    /// changes nothing, and what is wanted stays so.
    pub fn land(&mut self, hash: &Hash256)
        ensures { self.new ≡ landed hash.now self.old }
    {
        self.flight.retain(|other| *hash != *other);
    }

    /// Whether the block is in flight or wanted.
    pub fn is_fetched(&self, hash: &Hash256) -> bool
        ensures { result ≡ is_fetched self.now hash.now }
    {
        self.is_in_flight(hash) || self.wanted.contains(hash)
    }

    /// Whether some of the blocks are neither in flight nor wanted.
    pub fn leaves_out(&self, hashes: &[Hash256]) -> bool
        ensures { result ≡ leaves_out self.now hashes.now }
    {
        for missing in hashes {
            if !self.is_fetched(missing) {
                return true;
            }
        }
        false
    }

    /// Whether the block is in flight.
    pub fn is_in_flight(&self, hash: &Hash256) -> bool
        ensures { result ≡ has self.now.flight hash.now }
    {
        stands_in(self.flight.as_slice(), hash)
    }

    /// Whether fewer than 16 blocks are in flight.
    fn has_room_in_flight(&self) -> bool
        ensures { result ≡ nat_lt (length self.now.flight) 16 }
    {
        self.flight.len() < MOST_IN_FLIGHT
    }

    /// Appends a block that isn't wanted to the wanted ones, unless 2,000 are wanted.
    ///
    /// Fails only with `Fault::Memory`, and never if 2,000 are wanted. After an error nothing has
    /// changed.
    fn put_wanted(&mut self, hash: Hash256) -> Result<(), Fault>
        requires { has self.old.wanted hash ≡ false }
        ensures wanted { OnOk result (self.new ≡ with_wanted self.old hash) }
        ensures memory { IsOkUnless result Memory }
        ensures err { OnErr result (self.new ≡ self.old) }
        ensures unpaid { with_wanted self.old hash ≡ self.old → IsOk result }
    {
        if self.wanted.len() < MOST_WANTED {
            self.wanted.insert(hash)?;
        }
        Ok(())
    }

    /// Appends a block that isn't in flight to those in flight. Fewer than 16 must be in flight.
    ///
    /// Fails only with `Fault::Memory`. After an error nothing has changed.
    fn put_flight(&mut self, hash: Hash256) -> Result<(), Fault>
        requires fresh { has self.old.flight hash ≡ false }
        requires room { length self.old.flight < 16 }
        ensures flight { OnOk result (self.new ≡ with_flight self.old hash) }
        ensures memory { IsOkUnless result Memory }
        ensures err { OnErr result (self.new ≡ self.old) }
    {
        self.flight.push(hash)?;
        Ok(())
    }

    /// Queues one block for download behind all others, as a block whose parent is in flight or
    /// wanted needs it: it becomes wanted, as the last, unless it is in flight or wanted, or 2,000
    /// are wanted.
    ///
    /// Fails only with `Fault::Memory`, and never if nothing is to change. After an error nothing
    /// has changed.
    pub fn want_one(&mut self, hash: Hash256) -> Result<(), Fault>
        ensures wanted { OnOk result (self.new ≡ wanting self.old hash) }
        ensures memory { IsOkUnless result Memory }
        ensures err { OnErr result (self.new ≡ self.old) }
        ensures unpaid { wanting self.old hash ≡ self.old → IsOk result }
    {
        if !self.is_fetched(&hash) {
            self.put_wanted(hash)?;
        }
        Ok(())
    }

    /// Puts a block in flight if fewer than 16 are, and otherwise appends it to the wanted ones, if
    /// fewer than 2,000 are. A block that is in flight or wanted changes nothing. Fails only with
    /// `Fault::Memory`.
    fn take_one(&mut self, hash: Hash256) -> Result<(), Fault>
        ensures taken { OnOk result (self.new ≡ taking_on self.old hash) }
        ensures memory { IsOkUnless result Memory }
    {
        if self.is_fetched(&hash) {
            return Ok(());
        }
        if self.has_room_in_flight() {
            return self.put_flight(hash);
        }
        self.put_wanted(hash)
    }

    /// The place of a block among the wanted ones.
    fn place_of(&self, hash: &Hash256) -> Option<usize>
        ensures place { result ≡ place_of self.now hash.now }
        ensures within { IfSome result (λ place. place < length self.now.wanted) }
        ensures few { length self.now.wanted ≤ 2000 }
    {
        self.wanted.get_index_of(hash)
    }

    /// The place among the wanted blocks of the first of these that is wanted and not in flight.
    fn first_place(&self, hashes: &[Hash256]) -> Option<usize>
        ensures place { result ≡ first_place self.now hashes.now }
        ensures within { IfSome result (λ place. place < length self.now.wanted) }
    {
        for hash in hashes {
            if self.is_in_flight(hash) {
                continue;
            }
            let place = self.place_of(hash);
            if place.is_some() {
                return place;
            }
        }
        None
    }

    /// Whether those of the blocks that aren't in flight are the last wanted ones, from the place
    /// `first` on, in this order, so that `want` changes nothing. Looks each of them up.
    fn stand_last(&self, first: usize, hashes: &[Hash256]) -> bool
        ensures stand { result ≡ stand_last self.now first first hashes.now }
        ensures few { length self.now.wanted ≤ 2000 }
    {
        let mut next = first;
        for hash in hashes {
            if self.is_in_flight(hash) {
                continue;
            }
            let place = self.place_of(hash);
            if place == Some(next) {
                next += 1;
            } else if !is_passed(first, next, place) {
                return false;
            }
        }
        next == self.wanted.len()
    }

    /// Takes those of the listed blocks that aren't in flight out of the wanted ones, in one pass.
    fn forget(&mut self, listed: &HashSet<Hash256, Seed>)
        ensures { self.new ≡ without self.old listed.now.keys }
    {
        let flight = self.flight.as_slice();
        self.wanted
            .retain(|hash| stands_in(flight, hash) || !listed.contains(hash));
    }

    /// Queues each of the blocks as `want_one` does. After an error the first of them may be
    /// wanted, behind those that were.
    fn want_each(&mut self, hashes: &[Hash256]) -> Result<(), Fault>
        ensures wanted { OnOk result (self.new ≡ fold wanting self.old hashes.now) }
        ensures memory { IsOkUnless result Memory }
        ensures flight { self.new.flight ≡ self.old.flight }
        ensures front { take (length self.old.wanted) self.new.wanted ≡ self.old.wanted }
        ensures known { fold wanting self.old hashes.now ≡ self.old → IsOk result }
    {
        for hash in hashes {
            self.want_one(*hash)?;
        }
        Ok(())
    }

    /// Queues each of the blocks as `want_one` does, or none of them. Fails only with
    /// `Fault::Memory`, and never if no block becomes wanted. After an error nothing has changed.
    fn append(&mut self, hashes: &[Hash256]) -> Result<(), Fault>
        ensures wanted { OnOk result (self.new ≡ fold wanting self.old hashes.now) }
        ensures memory { IsOkUnless result Memory }
        ensures err { OnErr result (self.new ≡ self.old) }
        ensures known { fold wanting self.old hashes.now ≡ self.old → IsOk result }
    {
        let before = self.wanted.len();
        match self.want_each(hashes) {
            Ok(()) => Ok(()),
            Err(fault) => {
                self.wanted.truncate(before);
                Err(fault)
            }
        }
    }

    /// Does what `want` does over a copy, so that after an error nothing has changed. Fails only
    /// with `Fault::Memory`.
    fn rearrange(&mut self, hashes: &[Hash256]) -> Result<(), Fault>
        ensures wanted { OnOk result (self.new ≡ wanting_all self.old hashes.now) }
        ensures memory { IsOkUnless result Memory }
        ensures err { OnErr result (self.new ≡ self.old) }
    {
        let listed = set_of(self.alloc, self.seed(), hashes)?;
        let mut next = self.copy(self.alloc)?;
        next.forget(&listed);
        next.want_each(hashes)?;
        *self = next;
        Ok(())
    }

    /// Queues the missing blocks that a `headers` message lists for download, in its order, which
    /// is parents first. Those that aren't in flight become the last wanted ones, also if they were
    /// wanted before; there is room for 2,000 wanted blocks. What is in flight stays as it is.
    ///
    /// Fails only with `Fault::Memory`, and never if nothing is to change. After an error nothing
    /// has changed.
    pub fn want(&mut self, hashes: &[Hash256]) -> Result<(), Fault>
        ensures wanted { OnOk result (self.new ≡ wanting_all self.old hashes.now) }
        ensures memory { IsOkUnless result Memory }
        ensures err { OnErr result (self.new ≡ self.old) }
        ensures unpaid { length hashes.now ≡ 0 → IsOk result }
        ensures known { wanting_all self.old hashes.now ≡ self.old → IsOk result }
    {
        match self.first_place(hashes) {
            None => self.append(hashes),
            Some(first) if self.stand_last(first, hashes) => Ok(()),
            Some(_) => self.rearrange(hashes),
        }
    }

    /// Notes that a compact block couldn't be rebuilt (BIP 152), so that the whole block is needed.
    /// If it is in flight, nothing changes. If fewer than 16 are in flight, it goes in flight.
    /// Otherwise it becomes wanted, unless it is, or 2,000 are.
    ///
    /// Returns whether the whole block is to be requested now: it is in flight then.
    ///
    /// Fails only with `Fault::Memory`, and never if nothing is to change. After an error nothing
    /// has changed.
    pub fn fall_back(&mut self, hash: Hash256) -> Result<bool, Fault>
        ensures asked { IfOk result (λ now. now ≡ asks_now self.old hash) }
        ensures fallen { OnOk result (self.new ≡ fallen_back hash self.old) }
        ensures memory { IsOkUnless result Memory }
        ensures err { OnErr result (self.new ≡ self.old) }
        ensures unpaid { fallen_back hash self.old ≡ self.old → IsOk result }
    {
        if self.is_in_flight(&hash) {
            return Ok(true);
        }
        if self.has_room_in_flight() {
            self.put_flight(hash)?;
            return Ok(true);
        }
        if !self.wanted.contains(&hash) {
            self.put_wanted(hash)?;
        }
        Ok(false)
    }

    /// Takes the block of an `Inventory::Block` entry as `take_one` does. Another entry changes
    /// nothing. Fails only with `Fault::Memory`, and never for another entry.
    fn take_entry(&mut self, entry: Inventory) -> Result<(), Fault>
        ensures taken { OnOk result (self.new ≡ fold taking_on self.old (block_in entry)) }
        ensures memory { IsOkUnless result Memory }
        ensures unpaid { block_in entry ≡ [] → IsOk result }
    {
        match entry {
            Inventory::Block(hash) => self.take_one(hash),
            Inventory::Tx(_) => Ok(()),
            Inventory::CompactBlock(_) => Ok(()),
            Inventory::Other(_, _) => Ok(()),
        }
    }

    /// Replaces everything by the blocks that are still needed: the first 16 different ones are in
    /// flight, and the next 2,000 are wanted. Entries other than `Inventory::Block` are skipped.
    ///
    /// Fails only with `Fault::Memory`, and never without an `Inventory::Block` among the entries;
    /// nothing has then changed.
    pub fn take_on(&mut self, needed: &[Inventory]) -> Result<(), Fault>
        ensures taken { OnOk result (self.new ≡ taken_on (blocks_in needed.now)) }
        ensures memory { IsOkUnless result Memory }
        ensures err { OnErr result (self.new ≡ self.old) }
        ensures unpaid { length needed.now ≡ 0 → IsOk result }
        ensures blockless { blocks_in needed.now ≡ [] → IsOk result }
    {
        let mut next = Fetch::with_seed(self.alloc, self.seed());
        for entry in needed {
            next.take_entry(*entry)?;
        }
        *self = next;
        Ok(())
    }

    /// The wanted blocks as inventory entries, in order. With them the session asks which are still
    /// needed.
    ///
    /// Fails only with `Fault::Memory`, and never if nothing is wanted.
    pub fn wanted(&self, alloc: Global) -> Result<Entries, Fault>
        ensures entries { IfOk result (λ entries. entries ≡ as_blocks self.now.wanted) }
        ensures memory { IsOkUnless result Memory }
        ensures unpaid { length self.now.wanted ≡ 0 → IsOk result }
    {
        let entries = block_entries(alloc, self.wanted.as_slice())?;
        Ok(Entries::from_few(entries))
    }

    /// The `getdata` entries that request the blocks in flight, in order: as compact blocks (type
    /// 4, BIP 152) if `compact`, or else whole (type 2).
    ///
    /// Fails only with `Fault::Memory`, and never if nothing is in flight.
    pub fn flight_entries(&self, alloc: Global, compact: bool) -> Result<Entries, Fault>
        ensures entries { IfOk result (λ entries. entries ≡ requests_of compact self.now.flight) }
        ensures memory { IsOkUnless result Memory }
        ensures unpaid { length self.now.flight ≡ 0 → IsOk result }
    {
        let entries = request_entries(alloc, compact, self.flight.as_slice())?;
        Ok(Entries::from_few(entries))
    }

    /// An equal value. Fails only with `Fault::Memory`, and never if nothing is in flight or
    /// wanted.
    pub fn copy(&self, alloc: Global) -> Result<Fetch, Fault>
        ensures same { IfOk result (λ copy. copy ≡ self.now) }
        ensures memory { IsOkUnless result Memory }
        ensures unpaid { self.now ≡ idle → IsOk result }
    {
        if self.flight.is_empty() && self.wanted.is_empty() {
            return Ok(Fetch::with_seed(alloc, self.seed()));
        }
        let mut flight = Vec::with_capacity(alloc, self.flight.len())?;
        flight.extend_from_slice(self.flight.as_slice())?;
        let wanted = self.wanted.clone()?;
        Ok(Fetch {
            alloc,
            flight,
            wanted,
        })
    }
}

/// Whether the hash is one of these few.
fn stands_in(hashes: &[Hash256], hash: &Hash256) -> bool
    ensures { result ≡ has hashes.now hash.now }
{
    hashes.iter().any(|other| *hash == *other)
}

/// Whether a block at this place among the wanted ones was passed between the places `first` and
/// `next`, or isn't wanted and has no room.
fn is_passed(first: usize, next: usize, place: Option<usize>) -> bool
    ensures { result ≡ is_passed first next place }
{
    match place {
        None => next >= MOST_WANTED,
        Some(place) => first <= place && place < next,
    }
}

/// The hash set of these hashes, under this seed. Fails only with `Fault::Memory`.
fn set_of(alloc: Global, seed: Seed, hashes: &[Hash256]) -> Result<HashSet<Hash256, Seed>, Fault>
    ensures hashes { IfOk result
        (λ set. (hash : Hash256) → has set.keys hash ≡ has hashes.now hash) }
    // The seed decides only how long a look-up takes. No result shows it, so it is fixed here.
    ensures seed { IfOk result (λ set. hasher_of set ≡ seed) }
    ensures memory { IsOkUnless result Memory }
{
    let mut set = HashSet::with_capacity_and_hasher(alloc, hashes.len(), seed)?;
    for hash in hashes {
        set.insert(*hash)?;
    }
    Ok(set)
}

/// The inventory entries of the blocks with these hashes. Fails only with `Fault::Memory`, and
/// never without hashes.
fn block_entries(alloc: Global, hashes: &[Hash256]) -> Result<Vec<Inventory>, Fault>
    ensures entries { IfOk result (λ entries. entries.items ≡ as_blocks hashes.now) }
    ensures memory { IsOkUnless result Memory }
    ensures unpaid { length hashes.now ≡ 0 → IsOk result }
{
    let mut entries = Vec::with_capacity(alloc, hashes.len())?;
    for hash in hashes {
        entries.push(Inventory::Block(*hash))?;
    }
    Ok(entries)
}

/// The `getdata` entry that requests a block, as a compact block if `compact`, or else whole.
fn request_of(compact: bool, hash: Hash256) -> Inventory
    ensures { result ≡ request_of compact hash }
{
    if compact {
        Inventory::CompactBlock(hash)
    } else {
        Inventory::Block(hash)
    }
}

/// The `getdata` entries that request the blocks with these hashes. Fails only with
/// `Fault::Memory`, and never without hashes.
fn request_entries(
    alloc: Global,
    compact: bool,
    hashes: &[Hash256],
) -> Result<Vec<Inventory>, Fault>
    ensures entries { IfOk result (λ entries. entries.items ≡ requests_of compact hashes.now) }
    ensures memory { IsOkUnless result Memory }
    ensures unpaid { length hashes.now ≡ 0 → IsOk result }
{
    let mut entries = Vec::with_capacity(alloc, hashes.len())?;
    for hash in hashes {
        entries.push(request_of(compact, *hash))?;
    }
    Ok(entries)
}
