/// The settings of a session, fixed when it is made.
#[derive(Clone, Copy, PartialEq, Eq)]
pub struct Settings {
    /// Whether the peer made the connection.
    pub inbound: bool,
    /// The nonce of our `version`. A peer that sends it back is this node itself.
    pub nonce: u64,
    /// The time in our `version`, in seconds.
    pub time: i64,
    /// The height in our `version`.
    pub height: i32,
    /// The first part of the nonces of our compact blocks (BIP 152).
    pub salt: u64,
}
