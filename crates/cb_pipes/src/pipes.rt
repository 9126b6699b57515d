use log::LevelFilter;
use std::sync::atomic::{AtomicBool, AtomicU8, AtomicU64, Ordering};

/// How it stands with a process's pipes. Its threads share it.
#[derive(Drop)]
pub struct Pipes {
    end_asked: AtomicBool,
    /// How many pieces of the standard output aren't written yet.
    waiting: AtomicU64,
    /// How many writes took something.
    progress: AtomicU64,
    /// Whether a piece of the standard output couldn't be written.
    failed: AtomicBool,
    /// Which records are logged: the place of the level among all, the least verbose first.
    level: AtomicU8,
}

impl Pipes {
    /// Nothing waits to be written, and the end wasn't asked for yet. Records up to `Info` are
    /// logged.
    pub fn new() -> Pipes {
        Pipes {
            end_asked: AtomicBool::new(false),
            waiting: AtomicU64::new(0),
            progress: AtomicU64::new(0),
            failed: AtomicBool::new(false),
            level: AtomicU8::new(3),
        }
    }

    /// The end of the process is asked for. A pipe that nobody reads is waited for a few seconds
    /// more.
    pub fn ask_end(&self) {
        self.end_asked.store(true, Ordering::SeqCst);
    }

    /// Whether the end was asked for.
    pub fn is_end_asked(&self) -> bool {
        self.end_asked.load(Ordering::SeqCst)
    }

    /// Whether no line is to be answered now: an answer before isn't written yet, and the end
    /// wasn't asked for.
    pub fn holds_answers(&self) -> bool {
        self.waiting.load(Ordering::SeqCst) > 0 && !self.is_end_asked()
    }

    /// Whether a piece of the standard output couldn't be written. The next write to it fails.
    pub fn has_failed(&self) -> bool {
        self.failed.load(Ordering::SeqCst)
    }

    /// Which records are logged.
    pub fn level(&self) -> LevelFilter {
        match self.level.load(Ordering::SeqCst) {
            0 => LevelFilter::Off,
            1 => LevelFilter::Error,
            2 => LevelFilter::Warn,
            3 => LevelFilter::Info,
            4 => LevelFilter::Debug,
            _ => LevelFilter::Trace,
        }
    }

    /// Which records are logged from now on.
    pub fn set_level(&self, level: LevelFilter) {
        let place = match level {
            LevelFilter::Off => 0,
            LevelFilter::Error => 1,
            LevelFilter::Warn => 2,
            LevelFilter::Info => 3,
            LevelFilter::Debug => 4,
            LevelFilter::Trace => 5,
        };
        self.level.store(place, Ordering::SeqCst);
    }

    /// A piece of the standard output couldn't be written.
    pub(crate) fn note_failure(&self) {
        self.failed.store(true, Ordering::SeqCst);
    }

    /// So many pieces more wait to be written.
    pub(crate) fn add_waiting(&self, pieces: u64) {
        self.waiting.fetch_add(pieces, Ordering::SeqCst);
    }

    /// So many pieces wait no more.
    pub(crate) fn take_waiting(&self, pieces: u64) {
        self.waiting.fetch_sub(pieces, Ordering::SeqCst);
    }

    /// A write took something.
    pub(crate) fn note_progress(&self) {
        self.progress.fetch_add(1, Ordering::SeqCst);
    }

    /// How many writes took something.
    pub(crate) fn progress(&self) -> u64 {
        self.progress.load(Ordering::SeqCst)
    }
}
