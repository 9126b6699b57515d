// The functions of this file do nothing: their contracts are theorems.

ghost use Rattle.std.specs.Prelude.{◌≡◌, ℕ, ◌+◌, ◌<◌, List, length, All};
ghost use Rattle.cb_block.specs.Blocks.{IsSoundBlock};
ghost use Rattle.cb_block.specs.declared.block.Block.{Block};
ghost use Rattle.cb_compact.specs.Differences.{Rise, differences, sums};
ghost use Rattle.cb_compact.specs.Forms.{IsCompact, places_of};
ghost use Rattle.cb_compact.specs.Honest.{AreOneIfApart, AreOwn, HaveOwnIds, IsHonest, IsRebuilt, IsTold, own_pairs};
ghost use Rattle.cb_compact.specs.Placing.{IsPlaced};
ghost use Rattle.cb_compact.specs.declared.form.Compact.{Compact};
ghost use Rattle.cb_compact.specs.declared.form.Prefilled.{Prefilled};
ghost use Rattle.cb_compact.specs.declared.named_tx.Pair.{Pair};
ghost use Rattle.cb_compact.specs.declared.partial.Filled.TheVariants.{Sound};
ghost use Rattle.cb_compact.specs.declared.partial.Placed.{Placed};
ghost use Rattle.cb_compact.specs.declared.partial.Placed.TheVariants.{Whole};

/// Differences (BIP 152) and indexes can be turned into each other. Rising indexes come back from
/// their differences, and differences from the indexes that they stand for, which rise.
pub fn differences_lead_back()
    ensures indexes { (total : ℕ) (indexes : List ℕ) → Rise 0 total indexes →
        sums 0 (differences 0 indexes) ≡ indexes }
    ensures list { (list : List ℕ) → differences 0 (sums 0 list) ≡ list }
    ensures rise { (total : ℕ) (list : List ℕ) → All (λ index. index < total) (sums 0 list) →
        Rise 0 total (sums 0 list) }
{}

/// A compact block of an honest sender is rebuilt. Either `place` returns the very block, or it
/// returns exactly the places that no pair serves; then `fill` with the block's transactions at
/// these places returns the very block. The result is never `Repeat` and never `Wrong`.
///
/// An honest sender (IsHonest) sends the compact form of a sound block, and no two of its short ids
/// are equal. The pairs must be the block's own (AreOwn): a pair with the id of a place that isn't
/// prefilled has the transaction of that place, and no such id occurs in two pairs.
pub fn an_honest_form_is_rebuilt()
    // This holds for any result of `place` and `fill` that their contracts allow.
    ensures rebuilt { (block : Block) (nonce : ℕ) (places : List ℕ) (form : Compact)
        (pairs : List Pair)
        → IsHonest block nonce places form → AreOwn block nonce places pairs
        → (placed : Placed) →
        IsPlaced form.header form.ids.items form.prefilled.items pairs placed →
        IsRebuilt block nonce places pairs placed }
    // The requirements of `place` are met.
    ensures fits { (block : Block) (nonce : ℕ) (places : List ℕ) (form : Compact) →
        IsHonest block nonce places form
        → Rise 0 (length form.ids.items + length form.prefilled.items)
        (places_of form.prefilled.items)
        × (0 < length form.ids.items + length form.prefilled.items) }
{}

/// The compact form that `compact` makes is rebuilt at once from the block's own transactions, if
/// no short id of the form is also the id of another transaction of the block.
pub fn a_form_is_rebuilt_from_its_own_pairs()
    // Such a form is one of an honest sender, and such pairs are the block's own.
    ensures honest { (block : Block) (nonce : ℕ) (places : List ℕ) (form : Compact) →
        IsSoundBlock block → Rise 0 (length block.txs) places → IsCompact block nonce places form →
        HaveOwnIds block nonce places
        → IsHonest block nonce places form × AreOwn block nonce places (own_pairs block nonce) }
    ensures whole { (block : Block) (nonce : ℕ) (places : List ℕ) (form : Compact) →
        IsSoundBlock block → Rise 0 (length block.txs) places → IsCompact block nonce places form →
        HaveOwnIds block nonce places
        → (placed : Placed) →
        IsPlaced form.header form.ids.items form.prefilled.items (own_pairs block nonce) placed →
        placed ≡ Whole (Sound block) }
{}

/// Whatever the short ids, the prefilled transactions, the pairs and the transactions that are
/// filled in: a block that is returned as sound is the sound block under this header, unless hashes
/// collide.
pub fn what_is_told_as_sound_is_the_block()
    ensures { (block told : Block) (ids : List ℕ) (prefilled : List Prefilled) (pairs : List Pair)
        (placed : Placed)
        → IsSoundBlock block
        → IsPlaced block.header ids prefilled pairs placed → IsTold placed told →
        AreOneIfApart block told }
{}
