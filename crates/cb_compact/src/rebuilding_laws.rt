//! What holds for every compact block (BIP 152), whatever the mempool has: laws of the definitions
//! that the contracts use.
//!
//! Each law is the contract of a function that does nothing.
ghost use Rattle.std.specs.Prelude.{◌≡◌, ◌↔◌, ◌≤◌, ℕ, true, List, [], ◌∷◌, length, slice_get, All, Contains, Some, None, Ok};
ghost use Rattle.cb_base.specs.DoubleHash.{double_hash};
ghost use Rattle.cb_block.specs.TxText.{IsTx};
ghost use Rattle.cb_block.specs.Blocks.{IsSoundBlock, MeetsBlockRules};
ghost use Rattle.cb_block.specs.BlockText.{header_text};
ghost use Rattle.cb_block.specs.declared.block.Block.{Block};
ghost use Rattle.cb_compact.specs.Differences.{sums};
ghost use Rattle.cb_compact.specs.Honest.{AreOneIfApart, AreOwn};
ghost use Rattle.cb_compact.specs.Placing.{IsFilled, IsPlaced};
ghost use Rattle.cb_compact.specs.Slots.{AreDifferent, Unfilled, filled, missing};
ghost use Rattle.cb_compact.specs.declared.named_tx.Pair.{Pair};
ghost use Rattle.cb_compact.specs.declared.partial.Filled.{Filled};
ghost use Rattle.cb_compact.specs.declared.partial.Filled.TheVariants as filling;
ghost use Rattle.cb_compact.specs.declared.partial.Placed.{Placed};
ghost use Rattle.cb_wire.specs.declared.block_transactions.BlockTransactions.{BlockTransactions};
ghost use Rattle.cb_wire.specs.declared.block_transactions.BlockTransactionsRequest.{BlockTransactionsRequest};
ghost use Rattle.cb_wire.specs.declared.compact_block.HeaderAndShortIds.{HeaderAndShortIds};
ghost use Rattle.cb_compact.specs.Completing.{completed_of, judged_of};
ghost use Rattle.cb_compact.specs.HonestMessages.{IsHonestMessage, IsRebuiltTo, told_of};
ghost use Rattle.cb_compact.specs.Places.{has_places, placed_from};
ghost use Rattle.cb_compact.specs.Rebuilding.{rebuilt_of};
ghost use Rattle.cb_compact.specs.Shortening.{shortened_of};
ghost use Rattle.cb_compact.specs.declared.rebuilding.Rebuilt.TheVariants.{Lacking, Sound};

/// The computed results of checking, rebuilding and completing a block are exactly those of the
/// relations of cb_compact.
pub fn rebuilding_is_placing()
    ensures judged { (block : Block) (told : Filled) →
        IsFilled block.header block.txs told ↔ (told ≡ judged_of block) }
    ensures rebuilt { (message : HeaderAndShortIds) (pairs : List Pair) (placed : Placed) →
        IsPlaced message.header message.txs.ids (placed_from 0 message.txs.prefilled) pairs placed
        → rebuilt_of message pairs ≡ told_of placed }
    ensures completed { (partial : Unfilled) (given : BlockTransactions) (told : Filled) →
        (completed_of partial given ≡ Ok told)
        ↔ ((length given.txs ≡ length (missing 0 partial.slots))
        × IsFilled partial.header (filled partial.slots given.txs) told) }
{}

/// An honest sender's compact block (BIP 152) is rebuilt. If the pairs that have its short ids hold
/// the block's own transactions, the result is that block, or the request names exactly the places
/// that no pair fills, and the block's transactions there complete it. So it is never useless, and
/// its prefilled transactions have places.
pub fn an_honest_message_is_rebuilt()
    ensures rebuilt { (block : Block) (places : List ℕ) (message : HeaderAndShortIds)
        (pairs : List Pair) → IsHonestMessage block places message →
        AreOwn block message.nonce places pairs
        → IsRebuiltTo block message.nonce places pairs (rebuilt_of message pairs) }
    ensures places { (block : Block) (places : List ℕ) (message : HeaderAndShortIds) →
        IsHonestMessage block places message → has_places message.txs ≡ true }
{}

/// A block that comes out as sound is the one sound block under its header, whatever the message,
/// the pairs and the `blocktxn` are, as long as no two different strings hashed for the two blocks
/// have one hash.
pub fn what_is_rebuilt_is_the_block()
    ensures rebuilt { (block told : Block) (message : HeaderAndShortIds) (pairs : List Pair) →
        IsSoundBlock block → message.header ≡ block.header →
        rebuilt_of message pairs ≡ Sound told → AreOneIfApart block told }
    ensures completed { (block told : Block) (partial : Unfilled) (given : BlockTransactions) →
        IsSoundBlock block → partial.header ≡ block.header →
        completed_of partial given ≡ Ok (filling.Sound told) → AreOneIfApart block told }
{}

/// An incomplete block has the header of its message. Its request has that header's hash, and names
/// each empty place and no other.
pub fn what_lacks_is_asked_for()
    ensures under { (message : HeaderAndShortIds) (pairs : List Pair) (partial : Unfilled)
        (request : BlockTransactionsRequest) →
        rebuilt_of message pairs ≡ Lacking partial request
        → (partial.header ≡ message.header)
        × (request.block ≡ double_hash (header_text message.header)) }
    ensures exact { (message : HeaderAndShortIds) (pairs : List Pair) (partial : Unfilled)
        (request : BlockTransactionsRequest) →
        rebuilt_of message pairs ≡ Lacking partial request
        → (place : ℕ) → Contains (sums 0 request.differences) place
        ↔ (slice_get partial.slots place ≡ Some None) }
{}

/// The compact block that we send of a sound block is an honest sender's, if no two of its short
/// ids are equal.
pub fn a_shortened_block_is_honest()
    ensures { (block : Block) (nonce : ℕ) → IsSoundBlock block →
        AreDifferent (shortened_of block nonce).txs.ids →
        IsHonestMessage block (0 ∷ []) (shortened_of block nonce) }
{}

/// A block that meets its rules has at most 16,666 transactions, since each has at least 60 bytes.
pub fn a_block_has_few_txs()
    ensures { (block : Block) → All IsTx block.txs → MeetsBlockRules block →
        length block.txs ≤ 16666 }
{}
