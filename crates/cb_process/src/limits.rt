ghost use Rattle.std.specs.Prelude.{◌≡◌, ◌-◌};
ghost use Rattle.cb_process.specs.Limits.{dialled_of, usual_limits};

/// What an operator lets peers do.
#[derive(Clone, Copy)]
pub struct Limits {
    /// How many milliseconds pass at most before a session has its peer's `version` and `verack`.
    pub handshake: u64,
    /// How many milliseconds pass at most without a whole message.
    pub idle: u64,
    /// How many milliseconds blocks are in flight at most while the peer gives none.
    pub block: u64,
    /// How many slots serve peers that connect to the node.
    pub inbound: u16,
    /// How many slots serve peers that the node dials.
    pub outbound: u16,
    /// How many connections of one address last at most. `None`: as many as there are, and as many
    /// new ones a second.
    pub per_address: Option<u16>,
}

impl Limits {
    /// The limits of a node whose operator tells none: a minute, 20 minutes and 2 minutes, and 48
    /// and 16 slots.
    pub fn usual() -> Limits
        ensures { result ≡ usual_limits }
    {
        Limits {
            handshake: 60_000,
            idle: 1_200_000,
            block: 120_000,
            inbound: 48,
            outbound: 16,
            per_address: None,
        }
    }

    /// The same with this many slots. A quarter of them, but at least 1 and at most 16, serve peers
    /// that the node dials, and the others peers that connect to it.
    pub fn with_most(self, most: u16) -> Limits
        ensures slots { (result.outbound ≡ dialled_of most)
            × (result.inbound ≡ most - dialled_of most) }
        ensures same { (result.handshake ≡ self.handshake) × (result.idle ≡ self.idle)
            × (result.block ≡ self.block) × (result.per_address ≡ self.per_address) }
    {
        let outbound = (most / 4).max(1).min(16);
        Limits {
            handshake: self.handshake,
            idle: self.idle,
            block: self.block,
            inbound: most.saturating_sub(outbound),
            outbound,
            per_address: self.per_address,
        }
    }
}
