/// One connection of a peer. A peer's first connection has generation 1, and each later one the
/// next generation.
#[derive(Clone, Copy, PartialEq, Eq)]
pub struct Connection {
    /// The peer's number.
    pub peer: u16,
    /// The connection's generation.
    pub generation: u64,
}
