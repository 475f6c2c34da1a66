// The refusals (document 01, "The refusals, by number"), by the names that bindings/c/include/codeplug.h gives them.
ghost use Rattle.std.specs.Prelude.{◌≡◌, Some};
ghost use Rattle.format.specs.Refusals.{number_of, reason_of, refusal_text};

use std::error::Error;
use std::fmt;

// Why something is refused, in the order of the numbers.
#[derive(Clone, Copy, Debug, PartialEq, Eq)]
pub enum Reason {
    // the file is longer than 1,048,576 bytes
    TooLong,
    // a field is not wholly inside the file
    Cut,
    // the file does not begin as a codeplug
    Magic,
    // the file's version is not 1
    Version,
    // a text is outside its rule
    Text,
    // there is no such mode
    Mode,
    // another value, a reserved bit or a pad byte is outside its rule
    Value,
    // an M17 address is neither a callsign's nor broadcast
    Address,
    // a channel names a contact that is not there or has another mode
    ContactIndex,
    // a bank does not start where its offset says
    BankOffset,
    // a bank names a channel that is not there
    BankEntry,
    // there are bytes behind the last bank
    Trailing,
    // a callsign has no character, or more than nine
    CallsignLength,
    // a callsign holds a character that may not stand there
    CallsignForeign,
    // a callsign ends in a space
    CallsignSpace,
    // a number is neither a callsign's nor broadcast
    AddressNumber,
    // a callsign's buffer is shorter than nine bytes
    CallsignBuffer,
    // an output buffer is shorter than the record
    ShortBuffer,
    // a stated length is more than its buffer
    BadLength,
    // the history is not whole entries
    BadHistory,
    // there is no such edit, or its record has the wrong length
    NoEdit,
    // there is no such place
    NoPlace,
    // the count to grow is 65,535
    Full,
    // the contact is called by a channel, or the channel is in a bank
    InUse,
    // the result does not fit the codeplug's buffer
    NoRoom,
    // the new entry alone does not fit the history's buffer
    HistoryTooSmall,
    // the history is empty
    NoUndo,
    // the top entry does not fit the codeplug
    HistoryEntry,
    // a reason of the caller's own, by its number
    Other(u8),
}

impl Reason {
    // The number that document 01 gives it; of a reason of the caller's own, its number.
    #[tactic(auto, unfolding(crate::specs::Refusals::number_of))]
    pub fn number(self) -> u8
        ensures { result ≡ number_of self }
    {
        match self {
            Reason::TooLong => 1,
            Reason::Cut => 2,
            Reason::Magic => 3,
            Reason::Version => 4,
            Reason::Text => 5,
            Reason::Mode => 6,
            Reason::Value => 7,
            Reason::Address => 8,
            Reason::ContactIndex => 9,
            Reason::BankOffset => 10,
            Reason::BankEntry => 11,
            Reason::Trailing => 12,
            Reason::CallsignLength => 20,
            Reason::CallsignForeign => 21,
            Reason::CallsignSpace => 22,
            Reason::AddressNumber => 23,
            Reason::CallsignBuffer => 24,
            Reason::ShortBuffer => 25,
            Reason::BadLength => 30,
            Reason::BadHistory => 31,
            Reason::NoEdit => 32,
            Reason::NoPlace => 33,
            Reason::Full => 34,
            Reason::InUse => 35,
            Reason::NoRoom => 36,
            Reason::HistoryTooSmall => 37,
            Reason::NoUndo => 38,
            Reason::HistoryEntry => 39,
            Reason::Other(number) => number,
        }
    }
}

impl From<u8> for Reason {
    ghost from_gives = { λ number r. (r ≡ reason_of number) × (number_of r ≡ number) };

    // The reason of a number, the caller's own where document 01 gives it none.
    #[tactic(auto, unfolding(crate::specs::Refusals::reason_of, crate::specs::Refusals::number_of))]
    fn from(number: u8) -> Reason {
        match number {
            1 => Reason::TooLong,
            2 => Reason::Cut,
            3 => Reason::Magic,
            4 => Reason::Version,
            5 => Reason::Text,
            6 => Reason::Mode,
            7 => Reason::Value,
            8 => Reason::Address,
            9 => Reason::ContactIndex,
            10 => Reason::BankOffset,
            11 => Reason::BankEntry,
            12 => Reason::Trailing,
            20 => Reason::CallsignLength,
            21 => Reason::CallsignForeign,
            22 => Reason::CallsignSpace,
            23 => Reason::AddressNumber,
            24 => Reason::CallsignBuffer,
            25 => Reason::ShortBuffer,
            30 => Reason::BadLength,
            31 => Reason::BadHistory,
            32 => Reason::NoEdit,
            33 => Reason::NoPlace,
            34 => Reason::Full,
            35 => Reason::InUse,
            36 => Reason::NoRoom,
            37 => Reason::HistoryTooSmall,
            38 => Reason::NoUndo,
            39 => Reason::HistoryEntry,
            _ => Reason::Other(number),
        }
    }
}

// A refusal, document 01's word for an error: why, and the place.
#[derive(Clone, Copy, Debug, PartialEq, Eq)]
pub struct Refusal {
    pub reason: Reason,
    pub place: usize,
}

impl fmt::Display for Refusal {
    ghost output = { λ r. Some (refusal_text r) };

    fn fmt<W: fmt::Write>(&self, f: &mut fmt::Formatter<W>) -> fmt::Result {
        write!(f, "refused {} at {}", self.reason.number(), self.place)
    }
}

impl Error for Refusal {}
