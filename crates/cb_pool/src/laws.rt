ghost use Rattle.std.specs.Prelude.{◌≡◌, ◌≢◌, ◌++◌, ◌∷◌, [], List, All, IsOk, None, Ok};
ghost use Rattle.std.specs.FinMap as finite;
ghost use Rattle.cb_block.specs.declared.tx.OutPoint.{OutPoint};
ghost use Rattle.cb_block.specs.declared.tx.Tx.{Tx};
ghost use Rattle.cb_ledger.specs.Spend.{spend};
ghost use Rattle.cb_ledger.specs.Touched.{IsMade, IsNamed};
ghost use Rattle.cb_ledger.specs.Unspent.{Unspent};
ghost use Rattle.cb_pool.specs.Folding.{Refolds};
ghost use Rattle.cb_pool.specs.Listing.{AreNumbered, Listing, NamesDiffer, txs_of};
ghost use Rattle.cb_pool.specs.Rules.{StandsAlone};
ghost use Rattle.cb_pool.specs.Touching.{AreApart};

use crate::pool::Pool;
use cb_ledger::Ledger;

/// Each transaction of a pool passes the checks of `Candidate::new`, and no two have the same txid.
pub fn each_stands_alone(pool: &Pool)
    ensures alone { All StandsAlone (txs_of pool.now.list) }
    ensures names { NamesDiffer (txs_of pool.now.list) }
{
    // No effect when it runs: it tells the prover what the type keeps.
    let _ = pool.members.len();
}

/// As long as the next number is below 18,446,744,073,709,551,615, each number of a pool is below
/// the next one, and no two are equal.
pub fn numbers_differ(pool: &Pool)
    ensures { AreNumbered pool.now.list pool.now.next }
{
    // No effect when it runs: it tells the prover what the type keeps.
    let _ = &pool.members;
}

/// If the pool's transactions can be spent in order over the UTXO set, each of them spends only
/// outputs that are in the UTXO set or that an earlier transaction of the pool makes.
pub fn each_spends_what_is_there(pool: &Pool, ledger: &Ledger)
    requires { IsOk (spend ledger.now.unspent (txs_of pool.now.list)) }
    ensures { (before after : List Tx) (tx : Tx) (point : OutPoint) →
        txs_of pool.now.list ≡ before ++ tx ∷ after
        → IsNamed tx.inputs point → ¬ IsMade before point →
        finite.get ledger.now.unspent point ≢ None }
{
    each_stands_alone(pool);
}

/// A pool has no double spend: if its transactions can be spent in order, and one of them spends an
/// output, a later one spends it only if the output was made again in between.
pub fn none_is_spent_twice(pool: &Pool, ledger: &Ledger)
    requires { IsOk (spend ledger.now.unspent (txs_of pool.now.list)) }
    ensures { (before between after : List Tx) (tx other : Tx) (point : OutPoint)
        → txs_of pool.now.list ≡ before ++ tx ∷ (between ++ other ∷ after) → IsNamed tx.inputs point
        → ¬ IsMade (tx ∷ between) point → ¬ IsNamed other.inputs point }
{
    each_stands_alone(pool);
}

/// Refolding has one result: over the same UTXO set, the same first transactions and the same old
/// pool lead to the same new pool.
pub fn one_fold()
    ensures { (u : Unspent) (first : List Tx) (old new other : Listing)
        → Refolds u first old new → Refolds u first old other → new ≡ other }
{}

/// If the pool's transactions can be spent in order over the UTXO set, refolding over it changes
/// nothing: no transaction is dropped or gets another number.
pub fn stays_as_it_is(pool: &Pool, ledger: &Ledger)
    requires { IsOk (spend ledger.now.unspent (txs_of pool.now.list)) }
    ensures { Refolds ledger.now.unspent [] pool.now pool.now }
{
    each_stands_alone(pool);
    // No effect when it runs: it tells the prover what the type keeps.
    let _ = pool.len();
}

/// If the pool's transactions can be spent in order over the UTXO set, they still can after other
/// transactions that touch none of the same outputs. Refolding over the UTXO set that those leave
/// changes nothing.
pub fn stays_behind_others(pool: &Pool, ledger: &Ledger)
    requires { IsOk (spend ledger.now.unspent (txs_of pool.now.list)) }
    ensures { (others : List Tx) (after : Unspent) → AreApart (txs_of pool.now.list) others →
        spend ledger.now.unspent others ≡ Ok after
        → IsOk (spend after (txs_of pool.now.list)) × Refolds after [] pool.now pool.now }
{
    each_stands_alone(pool);
    // No effect when it runs: it tells the prover what the type keeps.
    let _ = pool.len();
}
