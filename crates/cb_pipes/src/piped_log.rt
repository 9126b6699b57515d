//! The log of a process, whose lines a thread of its own writes.
ghost use Rattle.std.specs.Prelude.{[], None, Some};

use crate::clock::unix_time;
use crate::log_line::LogLine;
use crate::losses::{Lane, Losses, offer};
use crate::pipes::Pipes;
use cb_base::Shared;
use crossbeam_channel::Sender;
use jiff::Timestamp;
use log::kv::Source;
use log::span::Spans;
use log::{Line, Log, Metadata, Record};
use std::alloc::{AllocError, Global};
use std::fmt::Display;
use std::rt::Clock;
use std::sync::{Mutex, Wait};

/// Gives each record, behind the time in UTC, to the thread that writes the log. It never waits for
/// that thread: a line for which there is no room is dropped, and the next one tells how many were.
#[derive(Drop)]
pub struct PipedLog<R: Drop> {
    rt: R,
    alloc: Global,
    /// These tell which records are logged.
    pipes: Shared<Pipes>,
    outgoing: Mutex<LogLane<R>>,
}

/// The way to the thread that writes the log, and what was dropped on it.
#[derive(Drop)]
struct LogLane<R: Drop> {
    lane: ChannelLane<R>,
    losses: Losses,
}

/// A lane over a channel.
#[derive(Drop)]
struct ChannelLane<R: Drop> {
    rt: R,
    lines: Sender<LogLine, Global>,
}

impl<R: Wait + Drop> Lane for ChannelLane<R> {
    ghost use Rattle.std.specs.Prelude.{None, ⊤};

    ghost held = { λ _. None };

    ghost refused = { λ _ _ _. ⊤ };

    fn take(&mut self, line: LogLine) -> bool {
        self.lines.try_send(&self.rt, line).is_ok()
    }
}

impl<R: Wait + Clock + Copy + Drop> PipedLog<R> {
    /// A log whose lines go this way, of the records that the pipes' level lets through.
    pub fn new(
        rt: R,
        alloc: Global,
        lines: Sender<LogLine, Global>,
        pipes: Shared<Pipes>,
    ) -> PipedLog<R> {
        PipedLog {
            rt,
            alloc,
            pipes,
            outgoing: Mutex::new(LogLane {
                lane: ChannelLane { rt, lines },
                losses: Losses::none(),
            }),
        }
    }

    /// Offers a line. One for which memory lacks is dropped.
    fn put(&self, stamp: String, text: String) {
        let mut outgoing = self.outgoing.lock(&self.rt);
        let outgoing = &mut *outgoing;
        offer(&mut outgoing.lane, &mut outgoing.losses, stamp, text);
    }
}

impl<R: Wait + Clock + Copy + Drop> Log for PipedLog<R> {
    ghost enables = { λ _ _ _. None };

    ghost target_of = { λ _. Some [] };

    fn enabled(&self, metadata: &Metadata<'_>) -> bool {
        self.pipes.level().allows(metadata.level())
    }

    fn log<D: Display, K: Source, S: Spans>(&self, record: &Record<'_, D, K, S>) {
        let mut text = String::new(self.alloc);
        let line = Line::new(record);
        if write!(text, "{line}").is_err() {
            text = String::new(self.alloc);
        }
        let stamp = match stamp_of(self.alloc, unix_time(&self.rt)) {
            Ok(stamp) => stamp,
            Err(_) => String::new(self.alloc),
        };
        self.put(stamp, text);
    }

    fn flush(&self) {}

    fn target(&self) -> &str {
        ""
    }
}

/// A time in seconds since 1970 as `2026-11-27T19:20:05Z`, with a space behind it.
fn stamp_of(alloc: Global, second: i64) -> Result<String, AllocError> {
    let mut stamp = String::new(alloc);
    if let Ok(time) = Timestamp::from_second(second) {
        write!(stamp, "{time} ")?;
    }
    Ok(stamp)
}
