// A count of faults, and calls that are numbered, of which some are to fail.
ghost use Rattle.std.specs.Prelude.{◌≡◌, ◌↔◌, ◌+◌, ◌-◌, ◌≤◌, ◌^◌, min, IsErr, Contains, IfErr, OnOk};
ghost use Rattle.vm_host.specs.Calls.{HasCause, Rose};

use crate::HostError;

/// A count of faults, which stays at its type's last value.
#[derive(Clone, Copy, PartialEq, Eq)]
pub struct Faults {
    count: u64,
}

impl Faults {
    pub fn new() -> Self
        ensures { result ≡ record { count = 0 } }
    {
        Faults { count: 0 }
    }

    /// Refuses where the count can't rise any more.
    pub fn refuse_at_last(&self) -> Result<(), HostError>
        ensures last { IsErr result ↔ (self.now.count ≡ 2 ^ 64 - 1) }
        ensures failed { IfErr result (λ e. e ≡ HostError.Failed) }
    {
        if self.count == u64::MAX {
            return Err(HostError::Failed);
        }
        Ok(())
    }

    /// Counts a fault, and gives the answer that it has.
    pub fn raise(&mut self) -> HostError
        ensures failed { result ≡ HostError.Failed }
        ensures rose { Rose self.old.count self.new.count }
        ensures later { self.old.count ≤ self.new.count }
    {
        self.count = self.count.saturating_add(1);
        HostError::Failed
    }
}

/// The calls of a host, numbered from 0 on, of which the listed ones are to fail. The number stays
/// at its type's last value.
#[derive(Drop)]
pub struct Failing {
    numbers: Vec<u64>,
    call: u64,
    faults: Faults,
}

impl Failing {
    pub fn new(numbers: Vec<u64>) -> Self
        ensures { result ≡ record { numbers = numbers; call = 0; faults = record { count = 0 } } }
    {
        Failing {
            numbers,
            call: 0,
            faults: Faults::new(),
        }
    }

    /// Numbers a call, which fails where its number is listed.
    pub fn next(&mut self) -> Result<(), HostError>
        ensures cause { HasCause self.old.faults.count self.new.faults.count result }
        ensures exact { IsErr result ↔ Contains self.old.numbers.items self.old.call }
        ensures failed { IfErr result (λ e. e ≡ HostError.Failed) }
        ensures numbers { self.new.numbers.items ≡ self.old.numbers.items }
        ensures counted { self.new.call ≡ min (self.old.call + 1) (2 ^ 64 - 1) }
    {
        let call = self.call;
        self.call = self.call.saturating_add(1);
        if self.numbers.contains(&call) {
            return Err(self.fault());
        }
        Ok(())
    }

    /// Counts a fault of the call that was numbered last.
    pub fn fault(&mut self) -> HostError
        ensures failed { result ≡ HostError.Failed }
        ensures rose { Rose self.old.faults.count self.new.faults.count }
        ensures later { self.old.faults.count ≤ self.new.faults.count }
        ensures call { self.new.call ≡ self.old.call }
        ensures numbers { self.new.numbers ≡ self.old.numbers }
    {
        self.faults.raise()
    }
}
