// Why a running program stops before its end.
ghost use Rattle.std.specs.Prelude.{◌≡◌};
ghost use Rattle.bytecode.specs.Stops.{stop_number, stop_code};

/// A host's own word for why it stopped a call.
#[derive(Clone, Copy, Debug, PartialEq, Eq)]
pub struct HostFault {
    pub code: u32,
}

/// What a program stopped at. `Host` carries the fault of the host that was called.
#[derive(Clone, Copy, Debug, PartialEq, Eq)]
pub enum Stop {
    Divide,
    Null,
    Bounds,
    Array,
    Text,
    Alignment,
    Mark,
    Length,
    Cells,
    Calls,
    Host(HostFault),
    Native,
}

impl Stop {
    /// Its number, from 1 to 12. `Host` carries a fault, so the variants have no discriminants to read it from.
    pub fn number(self) -> u8
        ensures { result ≡ stop_number self }
    {
        match self {
            Stop::Divide => 1,
            Stop::Null => 2,
            Stop::Bounds => 3,
            Stop::Array => 4,
            Stop::Text => 5,
            Stop::Alignment => 6,
            Stop::Mark => 7,
            Stop::Length => 8,
            Stop::Cells => 9,
            Stop::Calls => 10,
            Stop::Host(_) => 11,
            Stop::Native => 12,
        }
    }

    /// The host's own code, where the host stopped a call; else 0.
    pub fn code(self) -> u32
        ensures { result ≡ stop_code self }
    {
        match self {
            Stop::Host(fault) => fault.code,
            _ => 0,
        }
    }
}
