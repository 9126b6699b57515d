ghost use Rattle.std.specs.Prelude.{◌≡◌};
ghost use Rattle.cb_node.specs.Node.{session_settings};
ghost use Rattle.cb_node.specs.Times.{settings_at};

use cb_peer::Settings;

/// What a node is started with.
#[derive(Clone, Copy, Debug, PartialEq, Eq)]
pub struct NodeSettings {
    /// The nonce of its `version` messages. A session whose peer sends the same is with the node
    /// itself, and ends.
    pub nonce: u64,
    /// The time of its `version` messages, in seconds since 1970.
    pub time: i64,
    /// The salt of the compact blocks (BIP 152) that it sends.
    pub salt: u64,
    /// How many slots serve peers that connect to the node.
    pub inbound: u16,
    /// How many slots serve peers to which the node connects. With `inbound` 1 to
    /// 1,024.
    pub outbound: u16,
    /// How many handler threads serve the slots, 1 to 16.
    pub handlers: u16,
    /// Whether peers are told of a new tip at once. Else they are told by the next tick.
    pub prompt: bool,
}

impl NodeSettings {
    /// The same at another time, in seconds since 1970.
    pub(crate) fn at(&self, time: i64) -> NodeSettings
        ensures { result ≡ settings_at self.now time }
    {
        NodeSettings { time, ..*self }
    }
}

/// With what the sessions of a slot begin.
pub fn session_settings(settings: &NodeSettings, slot: u16) -> Settings
    ensures { result ≡ session_settings settings.now slot }
{
    Settings {
        inbound: slot < settings.inbound,
        nonce: settings.nonce,
        time: settings.time,
        height: 0,
        salt: settings.salt,
    }
}
