// How far an exploration has come.

/// Is told how far an exploration has come.
pub trait Progress {
    /// So many of the runs are made, of so many. It is called before the first run with a stop and after each batch of runs, by the
    /// caller's thread alone.
    fn made(&self, runs: u64, of: u64);
}

/// Tells nobody.
#[derive(Clone, Copy, Debug)]
pub struct NoProgress;

impl Progress for NoProgress {
    fn made(&self, _: u64, _: u64) {}
}
