ghost use Rattle.std.specs.Prelude.{◌≡◌, ◌≤◌, ◌<◌, ◌^◌, IfOk, IsOkUnless};
ghost use Rattle.cb_base.specs.declared.fault.Fault.TheVariants.{Memory};
ghost use Rattle.cb_hall.specs.Badge.{AreBadges, counted, fresh_badge, marked};

use cb_base::Fault;
use cb_state::Connection;
use std::alloc::Global;
use std::marker::Model;

/// A badge: one connection's permit to ask the hall. It counts the questions that were granted. Its
/// model is its three fields.
#[derive(Drop)]
pub struct Badge {
    connection: Connection,
    count: u64,
    full: bool,
}

impl Model for Badge {
    ghost use Rattle.std.specs.Prelude.{◌≤◌, ◌^◌};
    ghost use Rattle.cb_hall.specs.Badge.{BadgeState};

    ghost Value = { BadgeState };

    ghost view = { λ badge.
        record { connection = badge.connection; count = badge.count; full = badge.full } };

    ghost invariant = { λ badge. badge.count ≤ 2 ^ 62 };
}

impl Badge {
    /// The badge of a connection that has asked nothing.
    pub(crate) fn new(connection: Connection) -> Badge
        ensures { result ≡ fresh_badge connection }
    {
        Badge {
            connection,
            count: 0,
            full: false,
        }
    }

    /// The connection whose badge this is.
    pub fn connection(&self) -> Connection
        ensures { result ≡ self.now.connection }
    {
        self.connection
    }

    /// The peer whose connection it is.
    pub fn peer(&self) -> u16
        ensures { result ≡ self.now.connection.peer }
    {
        self.connection.peer
    }

    /// Which of the peer's connections it is: 1 for the first.
    pub fn generation(&self) -> u64
        ensures { result ≡ self.now.connection.generation }
    {
        self.connection.generation
    }

    /// How many questions were granted.
    pub fn count(&self) -> u64
        ensures { result ≡ self.now.count }
    {
        self.count
    }

    /// Whether a question was refused because the hall or the badge had already granted 2^62.
    pub fn full(&self) -> bool
        ensures { result ≡ self.now.full }
    {
        self.full
    }

    /// Counts one more granted question.
    pub(crate) fn grant(&mut self)
        requires { self.old.count < 2 ^ 62 }
        ensures { self.new ≡ counted self.old }
    {
        self.count += 1;
    }

    /// Marks the badge: a question was refused as one too many.
    pub(crate) fn mark(&mut self)
        ensures { self.new ≡ marked self.old }
    {
        self.full = true;
    }
}

/// The badges of the first connections of the peers 0, 1, and so on. Fails only with
/// `Fault::Memory`.
pub(crate) fn first_badges(alloc: Global, peers: u16) -> Result<Vec<Badge>, Fault>
    ensures badges { IfOk result (λ badges. AreBadges peers badges.items) }
    ensures memory { IsOkUnless result Memory }
{
    let mut badges = Vec::with_capacity(alloc, peers as usize)?;
    for peer in 0..peers {
        badges.push(Badge::new(Connection {
            peer,
            generation: 1,
        }))?;
    }
    Ok(badges)
}
