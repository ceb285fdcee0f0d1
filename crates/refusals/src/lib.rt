// What a refused call answers: a reason of document 01's table, and the side that it speaks of.
#![tactic(auto)]

ghost use Rattle.std.specs.Prelude.{◌≡◌};
ghost use Rattle.refusals.specs.Table.{number_of, number_of_side, sided};

use std::fmt;

// The table's rows, by their numbers.
#[derive(Clone, Copy, PartialEq, Eq, Debug)]
pub enum Reason {
    ToleranceBelowZero = 1,
    FractionOutOfRange = 2,
    UnderEightBytes = 3,
    VersionNotZero = 4,
    ExtendedBit = 5,
    ReservedBits = 6,
    EnvelopeIndicator = 7,
    EndsInEnvelope = 8,
    BytesMissing = 9,
    ByteOrder = 10,
    UnknownKind = 11,
    TooManyLevels = 12,
    NoZ = 13,
    NoLine = 14,
    WorkspaceTooSmall = 15,
    OutputTooShort = 16,
    UnknownRule = 17,
    SridsDiffer = 18,
    NestsTooDeep = 19,
    BrokenTape = 20,
    NoSuchBlob = 21,
    ListsTooShort = 22,
}

// The blob that a refusal speaks of.
#[derive(Clone, Copy, PartialEq, Eq, Debug)]
pub enum Side {
    Neither = 0,
    First = 1,
    Second = 2,
}

#[derive(Clone, Copy, PartialEq, Eq, Debug)]
pub struct Refusal {
    pub reason: Reason,
    pub side: Side,
}

impl Reason {
    // The reason's number in the table.
    pub fn number(self) -> u32
        ensures { result ≡ number_of self }
    {
        self as u32
    }

    // The refusal of a side for this reason.
    pub fn of(self, side: Side) -> Refusal
        ensures { result ≡ sided side self }
    {
        Refusal { reason: self, side }
    }
}

impl Side {
    // 0 for neither blob, 1 or 2.
    pub fn number(self) -> u32
        ensures { result ≡ number_of_side self }
    {
        self as u32
    }
}

impl fmt::Display for Refusal {
    fn fmt<W: fmt::Write>(&self, f: &mut fmt::Formatter<W>) -> fmt::Result {
        write!(
            f,
            "refused {} side {}",
            self.reason.number(),
            self.side.number()
        )
    }
}
