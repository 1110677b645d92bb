//! Numbers of processes, ports and the parts of a program. Each kind has a type of its own.
ghost use Rattle.std.specs.Prelude.{◌≡◌, ◌≤◌, ◌↔◌, IsSome, IfSome};

/// The number of a process: 0 is the console, and 1 the main process. At most 1,024, as the greatest limit allows.
#[derive(Clone, Copy, Debug, PartialEq, Eq, PartialOrd, Ord, Hash)]
pub struct ProcNo {
    pub number: u32,
    ghost in_range: { number ≤ 1024 },
}

impl ProcNo {
    /// The process number, if it is at most 1,024.
    pub fn new(number: u32) -> Option<ProcNo>
        ensures some { IsSome result ↔ (number ≤ 1024) }
        ensures value { IfSome result (λ p. p.number ≡ number) }
    {
        if number <= 1024 {
            Some(ProcNo { number })
        } else {
            None
        }
    }

    pub fn get(self) -> u32
        ensures number { result ≡ self.number }
        ensures in_range { result ≤ 1024 }
    {
        self.number
    }
}

/// The number of a port: 0 is the console's. At most 16,384, as the greatest limit allows.
#[derive(Clone, Copy, Debug, PartialEq, Eq, PartialOrd, Ord, Hash)]
pub struct PortNo {
    pub number: u32,
    ghost in_range: { number ≤ 16384 },
}

impl PortNo {
    /// The port number, if it is at most 16,384.
    pub fn new(number: u32) -> Option<PortNo>
        ensures some { IsSome result ↔ (number ≤ 16384) }
        ensures value { IfSome result (λ p. p.number ≡ number) }
    {
        if number <= 16384 {
            Some(PortNo { number })
        } else {
            None
        }
    }

    pub fn get(self) -> u32
        ensures number { result ≡ self.number }
        ensures in_range { result ≤ 16384 }
    {
        self.number
    }
}

/// The number of a statement within its process, from 1.
#[derive(Clone, Copy, Debug, PartialEq, Eq, PartialOrd, Ord, Hash)]
pub struct StmtNo(pub u32);

/// The place of a type in the table of types.
#[derive(Clone, Copy, Debug, PartialEq, Eq, PartialOrd, Ord, Hash)]
pub struct TypeNo(pub u32);

/// The place of a variable among those of its process, the port first.
#[derive(Clone, Copy, Debug, PartialEq, Eq, PartialOrd, Ord, Hash)]
pub struct VarNo(pub u32);

/// The place of an exception in the list of exceptions.
#[derive(Clone, Copy, Debug, PartialEq, Eq, PartialOrd, Ord, Hash)]
pub struct ExcNo(pub u32);
