//! How long a connection may take.
use std::io;
use std::time::{Clock, Instant};

/// For how many seconds a connection may be still between two requests.
const STILL_SECONDS: u64 = 5;

/// How many seconds a request may take from its first byte to its last, and for how many an answer
/// may stall.
const REQUEST_SECONDS: u64 = 30;

/// For how many seconds an answer may stall once the server ends.
const END_SECONDS: u64 = 2;

/// How long a connection takes.
#[derive(Drop)]
pub struct ConnectionTimer {
    /// When the request began; while none has begun, when the last answer moved on.
    since: Instant,
    /// Whether bytes of a request have come.
    begun: bool,
    /// How many requests were answered.
    answered: u64,
}

impl ConnectionTimer {
    /// A connection begins. So many requests were answered before it.
    pub fn begin<R: Clock>(rt: &R, answered: u64) -> io::Result<ConnectionTimer> {
        Ok(ConnectionTimer {
            since: Instant::now(rt)?,
            begun: false,
            answered,
        })
    }

    /// So many requests are answered by now.
    pub fn note_answers<R: Clock>(&mut self, rt: &R, answered: u64) -> io::Result<()> {
        if answered != self.answered {
            self.answered = answered;
            self.begun = false;
            self.since = Instant::now(rt)?;
        }
        Ok(())
    }

    /// Bytes came. The first ones begin a request.
    pub fn note_read<R: Clock>(&mut self, rt: &R) -> io::Result<()> {
        if !self.begun {
            self.begun = true;
            self.since = Instant::now(rt)?;
        }
        Ok(())
    }

    /// Bytes went. They don't give a request more time.
    pub fn note_write<R: Clock>(&mut self, rt: &R) -> io::Result<()> {
        if !self.begun {
            self.since = Instant::now(rt)?;
        }
        Ok(())
    }

    /// Whether the connection took too long.
    pub fn is_late<R: Clock>(&self, rt: &R, writes: bool, ending: bool) -> io::Result<bool> {
        let limit = match (ending, writes, self.begun) {
            (true, true, _) => END_SECONDS,
            (true, false, _) => 0,
            (false, true, _) | (false, false, true) => REQUEST_SECONDS,
            (false, false, false) => STILL_SECONDS,
        };
        Ok(self.since.elapsed(rt)?.as_secs() >= limit)
    }
}
