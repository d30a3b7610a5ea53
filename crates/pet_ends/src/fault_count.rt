//! How often an end failed.
ghost use Rattle.std.specs.Prelude.{◌≡◌, ◌≤◌, true, false, is_err};
ghost use Rattle.pet_base.specs.Causes.{HasCause, Rose, one_more};

use pet_base::Failed;

/// A count of failures, which stops at the last value of a u64, and whether the last call failed.
#[derive(Drop)]
pub struct FaultCount {
    count: u64,
    last: bool,
}

impl FaultCount {
    /// No failure yet.
    pub fn new() -> FaultCount
        ensures count { result.count ≡ 0 }
        ensures last { result.last ≡ false }
    {
        FaultCount {
            count: 0,
            last: false,
        }
    }

    /// A call begins, which has not failed.
    pub fn begin(&mut self)
        ensures count { self.new.count ≡ self.old.count }
        ensures last { self.new.last ≡ false }
    {
        self.last = false;
    }

    /// Counts a failure.
    pub fn rise(&mut self) -> Failed
        ensures later { self.old.count ≤ self.new.count }
        ensures rose { Rose self.old.count self.new.count }
        ensures once { self.new.count ≡ one_more self.old.count }
        ensures last { self.new.last ≡ true }
    {
        self.count = self.count.saturating_add(1);
        self.last = true;
        Failed
    }

    /// What a call answered, which is counted where it failed.
    pub fn count<T, E: Drop>(&mut self, answer: Result<T, E>) -> Result<T, Failed>
        ensures cause { HasCause self.old.count self.new.count result }
        ensures failing { self.new.last ≡ is_err result }
        ensures same { is_err result ≡ is_err answer }
    {
        match answer {
            Ok(value) => {
                self.begin();
                Ok(value)
            }
            Err(_) => Err(self.rise()),
        }
    }
}
