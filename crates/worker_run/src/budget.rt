// How many entries a worker appends.
ghost use Rattle.std.specs.Prelude.{◌≡◌, ◌<◌, ◌≤◌, true, false};

/// How many entries a worker may append, and how many it has appended.
#[derive(Clone, Copy)]
pub(crate) struct Budget {
    pub(crate) most: u64,
    pub(crate) used: u64,
    ghost within: { used ≤ most },
}

impl Budget {
    ghost use Rattle.worker_run.specs.inner.Turns.{Counts};

    /// Nothing is appended yet.
    pub(crate) fn new(most: u64) -> Budget
        ensures most { result.most ≡ most }
        ensures used { result.used ≡ 0 }
    {
        Budget { most, used: 0 }
    }

    /// Whether nothing is left of it.
    pub(crate) fn is_spent(&self) -> bool
        ensures spent { result ≡ true → self.now.used ≡ self.now.most }
        ensures left { result ≡ false → self.now.used < self.now.most }
    {
        self.used >= self.most
    }

    /// Counts an entry.
    pub(crate) fn count(&mut self)
        requires { self.old.used < self.old.most }
        ensures { Counts self.old self.new 1 }
    {
        self.used += 1;
    }
}
