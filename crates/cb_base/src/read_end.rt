ghost use Rattle.std.specs.Prelude.{◌≡◌, ◌↔◌, IsTrue};

/// Why reading a stream ended.
#[derive(Clone, Copy, PartialEq, Eq)]
pub enum ReadEnd {
    /// The source ended.
    Eof,
    /// A read failed. Or nothing more can be read of the stream: it has a fault, or memory ran out.
    Fault,
    /// 2^40 reads were made, or no more items may be queued.
    Turns,
    /// Reading was stopped first: the session was over, or the reader was told to stop.
    Stopped,
}

impl ReadEnd {
    /// Whether reading was stopped before it ended by itself.
    pub fn is_stopped(&self) -> bool
        ensures { IsTrue result ↔ (self.now ≡ ReadEnd.Stopped) }
    {
        match self {
            ReadEnd::Stopped => true,
            ReadEnd::Eof => false,
            ReadEnd::Fault => false,
            ReadEnd::Turns => false,
        }
    }
}
