//! What holds of every chain and of every list of calls. Each law is the contract of a function
//! that changes nothing. The laws of a chain hold of every tree that calls lead to, so they follow
//! from `has_history` alone.
ghost use Rattle.std.specs.Prelude.{◌≡◌, ◌≤◌, ◌∷◌, ◌++◌, All, Err, IfSome, IsErr, IsOk, List, Ok, Option, Result, false, true};
ghost use Rattle.cb_base.specs.declared.fault.Fault.{Fault};
ghost use Rattle.cb_base.specs.declared.hash.Hash256.{Hash256};
ghost use Rattle.cb_block.specs.Blocks.{IsSoundBlock, MeetsBlockRules};
ghost use Rattle.cb_block.specs.declared.block.Block.{Block};
ghost use Rattle.cb_block.specs.declared.header.Header.{Header};
ghost use Rattle.cb_ledger.specs.Unspent.{Unspent};
ghost use Rattle.cb_chain.specs.Best.{active, best, faulty, missing, unspent_after};
ghost use Rattle.cb_chain.specs.Calls.{AcceptsBlock, AcceptsHeader};
ghost use Rattle.cb_chain.specs.Entries.{Entry, Tree, block_hash, is_kept, is_marked};
ghost use Rattle.cb_chain.specs.Headers.{TakesHeaders};
ghost use Rattle.cb_chain.specs.History.{Call, IsHistoric, IsHistory};
ghost use Rattle.cb_chain.specs.declared.change.Change.{Change};
ghost use Rattle.cb_chain.specs.Laws.{ComesAfter, IsLeftBy, IsMarkedFor, ReachesUp, BrokeRule, height_in};

use crate::chain::Chain;

/// Every chain is the result of a list of calls that gave it headers and blocks, starting from the
/// genesis block alone.
pub fn has_history(chain: &Chain)
    ensures { IsHistoric chain.now }
{
    // No effect when it runs: it tells the prover what the type keeps.
    let _ = &chain.tree;
}

/// The rules are deterministic. A list of calls leads to one tree, and a call on a tree has one
/// answer. A list of headers on a tree also has one answer, and leads to one tree.
pub fn one_tree()
    ensures tree { (calls : List Call) (one other : Tree) → IsHistory calls one →
        IsHistory calls other → one ≡ other }
    ensures header { (old one other : Tree) (header : Header) (answer again : Option Fault)
        → AcceptsHeader old header answer one → AcceptsHeader old header again other →
        answer ≡ again }
    ensures block { (old one other : Tree) (block : Block) (answer again : Result Change Fault)
        → AcceptsBlock old block answer one → AcceptsBlock old block again other → answer ≡ again }
    ensures headers { (old one other : Tree) (headers : List Header) (against again : Option Fault)
        (met others : List Hash256)
        → TakesHeaders old headers against met one → TakesHeaders old headers again others other →
        (against ≡ again) × (met ≡ others) × (one ≡ other) }
{}

/// The active chain is linked: its first header is the genesis block's, each later header has the
/// hash of the one before it in `prev`, and the last one's hash is the tip's.
pub fn active_is_linked(chain: &Chain)
    ensures { ReachesUp (active chain.now) (best chain.now) }
{
    has_history(chain);
}

/// The UTXO set after the tip, as `Chain::ledger` returns it, is what the active chain's blocks
/// above the genesis block leave: their transactions as one list, spent in order from the empty set
/// without a fault.
pub fn ledger_is_folded(chain: &Chain)
    ensures { (unspent : Unspent) → unspent_after chain.now (best chain.now) ≡ Ok unspent →
        IsLeftBy chain.now unspent }
{
    has_history(chain);
}

/// No block that can be connected with its whole path is higher than the tip. Among such blocks of
/// the tip's height the tip is the one that was kept first.
pub fn none_higher(chain: &Chain)
    ensures highest { (hash : Hash256) → IsOk (unspent_after chain.now hash)
        → height_in chain.now hash ≤ height_in chain.now (best chain.now) }
    ensures first { (newer older : Tree) (entry : Entry) → chain.now ≡ newer ++ entry ∷ older
        → IsOk (unspent_after (entry ∷ older) (block_hash entry.header)) →
        ComesAfter chain.now entry older }
{
    has_history(chain);
}

/// Two kinds of hash can't be connected with their whole path: a block that is marked bad, and a
/// hash whose block isn't kept, known or not. A kept block has no missing block on its path. If its
/// path can't be connected, it is marked bad exactly if the first of its blocks that can't be
/// connected is marked.
pub fn marked_is_never_spent(chain: &Chain)
    ensures marked { (hash : Hash256) → is_marked chain.now hash ≡ true →
        IsErr (unspent_after chain.now hash) }
    ensures unkept { (hash : Hash256) → is_kept chain.now hash ≡ false →
        IsErr (unspent_after chain.now hash) }
    ensures stop { (hash first : Hash256) (fault : Fault) → is_kept chain.now hash ≡ true
        → unspent_after chain.now hash ≡ Err (faulty first fault) →
        is_marked chain.now hash ≡ is_marked chain.now first }
    ensures whole { (hash lacking : Hash256) → is_kept chain.now hash ≡ true
        → unspent_after chain.now hash ≡ Err (missing lacking) → ⊥ }
{
    has_history(chain);
}

/// Nothing is marked bad without a reason. If only the header is kept and it is marked, a call gave
/// a block with this hash that breaks a block rule. A kept block that is marked can't be connected
/// itself, or is on top of a marked block that can't.
pub fn marked_for_a_reason(chain: &Chain)
    ensures alone { (calls : List Call) (hash : Hash256) → IsHistory calls chain.now →
        is_kept chain.now hash ≡ false
        → is_marked chain.now hash ≡ true → BrokeRule calls hash }
    ensures kept { (hash : Hash256) → is_kept chain.now hash ≡ true →
        is_marked chain.now hash ≡ true
        → IsMarkedFor chain.now hash }
{
    has_history(chain);
}

/// Each kept block above the genesis block meets the block rules, and its transactions are the
/// sound ones under its header. This holds whether or not it is marked bad.
pub fn kept_meet_rules(chain: &Chain)
    ensures rules { All (λ entry. IfSome entry.block MeetsBlockRules) chain.now }
    ensures sound { All (λ entry. IfSome entry.block IsSoundBlock) chain.now }
{
    has_history(chain);
}

/// Once a block is kept, nothing else is added under its hash. So each block is kept once and never
/// replaced. It is kept under its own header.
pub fn kept_once(chain: &Chain)
    ensures once { (newer older : Tree) (entry : Entry) → chain.now ≡ newer ++ entry ∷ older
        → is_kept older (block_hash entry.header) ≡ false }
    ensures header { (newer older : Tree) (entry : Entry) → chain.now ≡ newer ++ entry ∷ older
        → IfSome entry.block (λ block. block.header ≡ entry.header) }
{
    has_history(chain);
}
