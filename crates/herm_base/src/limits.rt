//! The limits of a run: how many processes, ports, steps and workers there may be.
ghost use Rattle.std.specs.Prelude.{◌≡◌, ◌≤◌, IfErr, IfOk, OnOk};
ghost use Rattle.std.specs.List.{AllByRecursion};
ghost use Rattle.herm_base.specs.RunLimits.{given, greatest, IsInRange, IsFaultOf, IsFirstFault};

/// One of the four limits, in the order in which they are judged.
#[derive(Clone, Copy, Debug, PartialEq, Eq)]
pub enum LimitName {
    Processes,
    Ports,
    Steps,
    Workers,
}

/// A number given for a limit that is below or above its range.
#[derive(Clone, Copy, Debug, PartialEq, Eq)]
pub enum LimitFault {
    Low(LimitName, u64),
    High(LimitName, u64),
}

/// The limits of a run, each in its range.
#[derive(Clone, Copy, Debug, PartialEq, Eq)]
pub struct Limits {
    pub processes: u64,
    pub ports: u64,
    pub steps: u64,
    pub workers: u64,
    ghost some_process: { 1 ≤ processes },
    ghost few_processes: { processes ≤ 1024 },
    ghost some_port: { 1 ≤ ports },
    ghost few_ports: { ports ≤ 16384 },
    ghost some_step: { 1 ≤ steps },
    ghost few_steps: { steps ≤ 1000000 },
    ghost some_worker: { 1 ≤ workers },
    ghost few_workers: { workers ≤ 16 },
}

impl Limits {
    /// The limits with these numbers: processes and ports besides the console's, steps of one process, and workers.
    /// The fault is that of the first number outside its range.
    pub fn new(processes: u64, ports: u64, steps: u64, workers: u64) -> Result<Limits, LimitFault>
        ensures kept { IfOk result (λ l. given l.processes l.ports l.steps l.workers ≡ given processes ports steps workers) }
        ensures in_range { IfOk result (λ _. AllByRecursion IsInRange (given processes ports steps workers)) }
        ensures refused { IfErr result (λ fault. IsFirstFault fault (given processes ports steps workers)) }
    {
        check(LimitName::Processes, processes, 1024)?;
        check(LimitName::Ports, ports, 16384)?;
        check(LimitName::Steps, steps, 1_000_000)?;
        check(LimitName::Workers, workers, 16)?;
        Ok(Limits {
            processes,
            ports,
            steps,
            workers,
        })
    }

    /// How many processes besides the console there may be: 1 to 1,024.
    pub fn processes(&self) -> u64
        ensures { result ≡ self.now.processes }
    {
        self.processes
    }

    /// How many ports besides the console's there may be: 1 to 16,384.
    pub fn ports(&self) -> u64
        ensures { result ≡ self.now.ports }
    {
        self.ports
    }

    /// How many steps one process may take: 1 to 1,000,000.
    pub fn steps(&self) -> u64
        ensures { result ≡ self.now.steps }
    {
        self.steps
    }

    /// How many workers run the processes: 1 to 16.
    pub fn workers(&self) -> u64
        ensures { result ≡ self.now.workers }
    {
        self.workers
    }
}

// Whether a number is at least 1 and at most the greatest.
fn check(limit: LimitName, n: u64, greatest_number: u64) -> Result<(), LimitFault>
    ensures ok { OnOk result ((1 ≤ n) × (n ≤ greatest_number)) }
    ensures err { IfErr result (λ fault. greatest_number ≡ greatest limit → IsFaultOf fault (limit, n)) }
{
    if n < 1 {
        Err(LimitFault::Low(limit, n))
    } else if greatest_number < n {
        Err(LimitFault::High(limit, n))
    } else {
        Ok(())
    }
}
