// Tells on standard error how far an exploration has come.
use sg_top::Progress;
use std::cell::Cell;
use std::time::Instant;

/// How many runs are many: that there are more is told at once, before they are made.
const MANY_RUNS: u64 = 10_000;

/// Whoever sits at the terminal: told once a second, from the end of the first second on, how many runs are made.
#[derive(Drop)]
pub struct Terminal<'a> {
    rt: &'a HostRuntime,
    begun: Option<Instant>,
    told: Cell<u64>,
}

impl Terminal<'_> {
    /// One that wasn't told anything yet. Where the clock can't be read it is told of many runs alone.
    pub fn new(rt: &HostRuntime) -> Terminal<'_> {
        Terminal {
            rt,
            begun: Instant::now(rt).ok(),
            told: Cell::new(0),
        }
    }

    // The whole seconds since the beginning.
    fn seconds(&self) -> u64 {
        match &self.begun {
            Some(begun) => match begun.elapsed(self.rt) {
                Ok(passed) => passed.as_secs(),
                Err(_) => 0,
            },
            None => 0,
        }
    }
}

impl Progress for Terminal<'_> {
    fn made(&self, runs: u64, of: u64) {
        let seconds = self.seconds();
        let is_long = runs <= 1 && of > MANY_RUNS;
        if is_long || seconds > self.told.get() {
            self.told.set(seconds);
            // A standard error that is closed keeps nothing from being made.
            let _ = eprintln!(self.rt; "superglue: {runs} of {of} runs");
        }
    }
}
