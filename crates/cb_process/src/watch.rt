//! Which connections are late.
ghost use Rattle.std.specs.Prelude.{◌≡◌, ◌+◌, ◌↔◌, ◌≤◌, false, IsTrue, None};
ghost use Rattle.cb_process.specs.Watching.{Decides, IsAble, IsIdle, IsNoted, IsQuiet, IsStuck, Stalls, WantsProbe, cause_text, marked, probed, silent_since, stands_since, took, waits_since};

use crate::limits::Limits;

/// A peer that has said nothing for so many milliseconds is sent a `ping` (BIP 31).
const PROBE_MILLISECONDS: u64 = 120_000;

/// For so many milliseconds a session waits for headers of what is unknown. A `ping` then makes it
/// ask again at the next cause.
const UNKNOWN_MILLISECONDS: u64 = 30_000;

/// Why a connection is ended.
#[derive(Clone, Copy, Debug, PartialEq, Eq)]
pub enum Cause {
    /// The handshake took too long.
    Handshake,
    /// The peer sent no whole message for too long.
    Idle,
    /// The peer gave none of the blocks in flight for too long.
    Block,
}

impl Cause {
    /// Its name in the log.
    pub fn name(self) -> &'static str
        ensures { result.now ≡ cause_text self }
    {
        match self {
            Cause::Handshake => "HandshakeTimeout",
            Cause::Idle => "IdleTimeout",
            Cause::Block => "BlockTimeout",
        }
    }
}

/// What is due for a connection.
#[derive(Clone, Copy, Debug, PartialEq, Eq)]
pub enum DueAction {
    /// Nothing.
    Nothing,
    /// Its peer is asked for a sign of life.
    Probe,
    /// It is ended.
    End(Cause),
}

/// What is seen of a connection at a moment.
#[derive(Clone, Copy)]
pub struct Sight {
    /// Whether its session is in Ready.
    pub ready: bool,
    /// How many whole messages came so far.
    pub messages: u64,
    /// How many blocks the peer gave so far.
    pub blocks: u64,
    /// How many blocks are in flight.
    pub flight: u64,
    /// How many `pong` messages came so far.
    pub pongs: u64,
    /// Whether its session asked for headers since something is unknown, and has no answer yet.
    pub unknown: bool,
}

/// What is remembered of a connection, so that a silent one ends. Times are in milliseconds since
/// the process began, and don't go back.
#[derive(Clone, Copy)]
pub struct Watch {
    /// When the connection was made.
    pub made: u64,
    /// When its latest whole message came.
    pub heard: Option<u64>,
    /// Since when blocks are in flight and the peer gave none.
    pub waits: Option<u64>,
    /// Whether the peer was probed since its latest message.
    pub probed: bool,
    /// When it was probed first behind its latest `pong`.
    pub asked: Option<u64>,
    /// How long its latest `pong` took behind the first probe that it answers.
    pub pong: Option<u64>,
    /// Since when its session waits for headers of what is unknown. A probe begins this anew.
    pub unknown: Option<u64>,
    /// What was seen of it last.
    pub latest: Sight,
}

impl Watch {
    /// A connection that is made at this time.
    pub fn new(now: u64) -> Watch
        ensures { (result.made ≡ now) × (result.heard ≡ None) × (result.waits ≡ None)
            × (result.probed ≡ false) × (result.asked ≡ None) × (result.pong ≡ None)
            × (result.unknown ≡ None) × (result.latest.ready ≡ false)
            × (result.latest.messages ≡ 0) × (result.latest.blocks ≡ 0)
            × (result.latest.flight ≡ 0) × (result.latest.pongs ≡ 0)
            × (result.latest.unknown ≡ false) }
    {
        Watch {
            made: now,
            heard: None,
            waits: None,
            probed: false,
            asked: None,
            pong: None,
            unknown: None,
            latest: Sight {
                ready: false,
                messages: 0,
                blocks: 0,
                flight: 0,
                pongs: 0,
                unknown: false,
            },
        }
    }

    /// Notes what is seen of the connection now.
    pub fn note(&mut self, sight: Sight, now: u64)
        ensures { IsNoted sight now self.old self.new }
    {
        if sight.messages != self.latest.messages {
            self.heard = Some(now);
            self.probed = false;
        }
        if sight.pongs != self.latest.pongs {
            self.pong = took(self.asked, now).or(self.pong);
            self.asked = None;
        }
        self.waits = waits_since(
            self.waits,
            sight.blocks != self.latest.blocks,
            sight.flight,
            now,
        );
        self.unknown = stands_since(self.unknown, sight.unknown, now);
        self.latest = sight;
    }

    /// Its peer is asked for a sign of life now.
    pub fn probe(&mut self, now: u64)
        ensures { self.new ≡ probed self.old now }
    {
        self.probed = true;
        self.asked = Some(self.asked.unwrap_or(now));
        self.unknown = stands_since(None, self.unknown.is_some(), now);
    }

    /// Since when the peer is silent.
    pub fn silent_since(&self) -> u64
        ensures { result ≡ silent_since self.now }
    {
        self.heard.unwrap_or(self.made)
    }

    /// Whether it is a connection that others can do without: its session is in Ready, and its peer
    /// neither is silent for too long nor holds blocks back.
    pub fn is_able(&self, limits: &Limits, now: u64) -> bool
        ensures { IsTrue result ↔ IsAble limits.now self.now now }
    {
        self.latest.ready && !self.is_idle(limits, now) && !self.stalls(limits, now)
    }

    /// What is due for the connection now, if another one is able (`is_able`) or none is. A probe
    /// that is due counts as sent.
    pub fn judge(&mut self, limits: &Limits, other: bool, now: u64) -> DueAction
        ensures due { Decides limits.now self.old other now result }
        ensures marked { self.new ≡ marked self.old now result }
    {
        if !self.latest.ready && have_passed(self.made, limits.handshake, now) {
            return DueAction::End(Cause::Handshake);
        }
        if self.is_idle(limits, now) {
            return DueAction::End(Cause::Idle);
        }
        if other && self.stalls(limits, now) {
            return DueAction::End(Cause::Block);
        }
        if self.wants_probe(now) {
            self.probe(now);
            return DueAction::Probe;
        }
        DueAction::Nothing
    }

    /// Whether its peer is silent for too long.
    fn is_idle(&self, limits: &Limits, now: u64) -> bool
        ensures { IsTrue result ↔ IsIdle limits.now self.now now }
    {
        have_passed(self.silent_since(), limits.idle, now)
    }

    /// Whether its peer holds blocks back for too long.
    fn stalls(&self, limits: &Limits, now: u64) -> bool
        ensures { IsTrue result ↔ Stalls limits.now self.now now }
    {
        match self.waits {
            Some(since) => have_passed(since, limits.block, now),
            None => false,
        }
    }

    /// Whether its peer is to be asked for a sign of life.
    fn wants_probe(&self, now: u64) -> bool
        ensures { IsTrue result ↔ WantsProbe self.now now }
    {
        self.is_quiet(now) || self.is_stuck(now)
    }

    /// Whether its peer has said nothing for so long that it is asked for a sign of life.
    fn is_quiet(&self, now: u64) -> bool
        ensures { IsTrue result ↔ IsQuiet self.now now }
    {
        self.latest.ready
            && !self.probed
            && have_passed(self.silent_since(), PROBE_MILLISECONDS, now)
    }

    /// Whether its session waits for headers of what is unknown for too long.
    fn is_stuck(&self, now: u64) -> bool
        ensures { IsTrue result ↔ IsStuck self.now now }
    {
        match self.unknown {
            Some(since) => self.latest.ready && have_passed(since, UNKNOWN_MILLISECONDS, now),
            None => false,
        }
    }
}

/// Since when something stands that stood since a time before, or not, and stands now or not.
fn stands_since(before: Option<u64>, stands: bool, now: u64) -> Option<u64>
    ensures { result ≡ stands_since before stands now }
{
    if stands {
        Some(before.unwrap_or(now))
    } else {
        None
    }
}

/// Since when blocks are in flight and none came, if that was so since a time before, and now a
/// block came or none, and so many are in flight.
fn waits_since(before: Option<u64>, came: bool, flight: u64, now: u64) -> Option<u64>
    ensures { result ≡ waits_since before came flight now }
{
    if flight == 0 {
        return None;
    }
    match before {
        Some(since) if !came => Some(since),
        _ => Some(now),
    }
}

/// How long an answer took that comes now, if it was asked for.
fn took(asked: Option<u64>, now: u64) -> Option<u64>
    ensures { result ≡ took asked now }
{
    match asked {
        Some(since) => Some(now.saturating_sub(since)),
        None => None,
    }
}

/// Whether so many milliseconds have passed since a time.
fn have_passed(since: u64, millis: u64, now: u64) -> bool
    ensures { IsTrue result ↔ (since + millis ≤ now) }
{
    since <= now && millis <= now - since
}
