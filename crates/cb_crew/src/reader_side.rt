use crate::queued::Opening;
use crate::reader::{EndedSeat, ReaderSeat};

/// What a peer's reader brings to `Crew::finish`: its seat, during a connection or after an end
/// mark.
#[derive(Drop)]
pub enum ReaderSide<M: Drop, O: Opening + Drop> {
    /// A connection lasts.
    Live(ReaderSeat<M, O>),
    /// The last connection ended.
    Ended(EndedSeat<M, O>),
}
