ghost use Rattle.std.specs.Prelude.{◌≡◌};
ghost use Rattle.osl_store.specs.Failures.{next_fails, after_call};

/// Calls numbered from 1, of which the listed ones fail.
#[derive(Drop)]
pub struct Failures {
    pub made: u64,
    pub listed: Vec<u64>,
}

impl Failures {
    /// No call was made yet.
    pub fn new(listed: Vec<u64>) -> Failures
        ensures { result ≡ record { made = 0; listed = listed } }
    {
        Failures { made: 0, listed }
    }

    /// Numbers the next call, and says whether it fails.
    pub fn next_fails(&mut self) -> bool
        ensures fails { result ≡ next_fails self.old }
        ensures after { self.new ≡ after_call self.old }
    {
        self.made = self.made.saturating_add(1);
        self.listed.contains(&self.made)
    }
}
