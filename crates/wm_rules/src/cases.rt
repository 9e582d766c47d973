//! The cases of V1 and V5, which a fault names by their numbers.
ghost use Rattle.std.specs.Prelude.{◌≡◌};
ghost use Rattle.wm_rules.specs.Cases.{overtaking_number, value_number};

/// The cases of V1: why a byte that was read is not what its writer wrote there.
#[derive(Clone, Copy)]
pub enum ValueCase {
    /// The writer is the read itself.
    OwnWrite,
    /// The writer doesn't write the byte.
    NotWritten,
    /// The writer wrote another value there.
    OtherValue,
}

impl ValueCase {
    /// The number of the case in a fault.
    pub fn number(self) -> u8
        ensures { result ≡ value_number self }
    {
        match self {
            ValueCase::OwnWrite => 1,
            ValueCase::NotWritten => 2,
            ValueCase::OtherValue => 3,
        }
    }
}

/// The cases of V5: why an atomic write may not come between a read and its writer in the order.
#[derive(Clone, Copy, PartialEq, Eq)]
pub enum OvertakingCase {
    /// The writer synchronizes with the read, and the other write has the read's range.
    Synchronized,
    /// Both writes happen before the read, and the writer is atomic with the other write's range.
    WrittenOver,
    /// The writer happens before the read and before the other write, which has the atomic read's range.
    ReadPast,
}

/// Those cases, in the order of their numbers.
pub const OVERTAKING_CASES: [OvertakingCase; 3] = [
    OvertakingCase::Synchronized,
    OvertakingCase::WrittenOver,
    OvertakingCase::ReadPast,
];

impl OvertakingCase {
    /// The number of the case in a fault.
    pub fn number(self) -> u8
        ensures { result ≡ overtaking_number self }
    {
        match self {
            OvertakingCase::Synchronized => 1,
            OvertakingCase::WrittenOver => 2,
            OvertakingCase::ReadPast => 3,
        }
    }
}
