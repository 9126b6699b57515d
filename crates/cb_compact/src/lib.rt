//! Compact blocks (BIP 152, version 1): short ids, indexes as differences, making a `cmpctblock` of
//! a block, and rebuilding a block from a `cmpctblock` and the transactions that are at hand.
#![tactic(auto)]

mod compacting;
mod completing;
mod difference;
mod form;
mod id_seed;
mod laws;
mod named_tx;
mod pairs;
mod partial;
mod places;
mod placing;
mod rebuilding;
mod rebuilding_laws;
mod short_ids;
mod shortening;
mod table;

pub use compacting::compact;
pub use completing::complete;
pub use difference::{differ, undiffer};
pub use form::{Compact, Prefilled};
pub use id_seed::IdSeed;
pub use laws::{
    a_form_is_rebuilt_from_its_own_pairs, an_honest_form_is_rebuilt, differences_lead_back,
    what_is_told_as_sound_is_the_block,
};
pub use named_tx::{NamedTx, Pair};
pub use pairs::{Pairs, ShortIds, short_id_set};
pub use partial::{Filled, Partial, Placed};
pub use places::check_places;
pub use placing::place;
pub use rebuilding::{Rebuilt, rebuild, rebuild_from};
pub use rebuilding_laws::{
    a_block_has_few_txs, a_shortened_block_is_honest, an_honest_message_is_rebuilt,
    rebuilding_is_placing, what_is_rebuilt_is_the_block, what_lacks_is_asked_for,
};
pub use short_ids::{key, short_id};
pub use shortening::shortened;
