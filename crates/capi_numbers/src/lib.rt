// The structures of the C interface that are numbers alone: a refusal, the answers of the two calls, of addresses and of tones, and a record's
// values.
// C has no Option and no Result, so a structure has a number for the refusal beside blank values, and an index or a frequency that is missing a number of its own.
#![tactic(auto)]

pub mod history; // history.rt: how many entries a history holds

ghost use Rattle.std.specs.Prelude.{◌≡◌};
ghost use Rattle.capi_numbers.specs.Numbers.{refused_by, refusal_of, edit_answer, encode_answer, decode_answer, tenths_of, index_number};

use bits::Nibbles;
use format::refusals::Refusal;
use journal::answer::Done;
use m17::Decoded;

// A refusal's number, 0 for none, and its place. Every answer that is a structure begins with one.
#[repr(C)]
#[derive(Clone, Copy)]
pub struct RefusalAnswer {
    pub number: u8,
    pub place: usize,
}

pub const OK: RefusalAnswer = RefusalAnswer {
    number: 0,
    place: 0,
};

impl From<Refusal> for RefusalAnswer {
    ghost from_gives = { λ e r. r ≡ refused_by e };

    fn from(refusal: Refusal) -> RefusalAnswer {
        RefusalAnswer {
            number: refusal.reason.number(),
            place: refusal.place,
        }
    }
}

impl From<Result<(), Refusal>> for RefusalAnswer {
    ghost from_gives = { λ v r. r ≡ refusal_of v };

    fn from(v: Result<(), Refusal>) -> RefusalAnswer {
        match v {
            Ok(()) => OK,
            Err(refusal) => refusal.into(),
        }
    }
}

// Both new lengths and the number of entries left; beside a refusal the lengths as given, and 0 entries.
#[repr(C)]
#[derive(Clone, Copy)]
pub struct EditAnswer {
    pub refusal: RefusalAnswer,
    pub length: usize,
    pub used: usize,
    pub entries: usize,
}

// The answer of a call with these two lengths.
pub fn edit_answer(a: Result<Done, Refusal>, length: usize, used: usize) -> EditAnswer
    ensures { result ≡ edit_answer a length used }
{
    match a {
        Ok(done) => EditAnswer {
            refusal: OK,
            length: done.len,
            used: done.used,
            entries: done.entries,
        },
        Err(refusal) => EditAnswer {
            refusal: refusal.into(),
            length,
            used,
            entries: 0,
        },
    }
}

// A callsign's address number; 0 beside a refusal.
#[repr(C)]
#[derive(Clone, Copy)]
pub struct EncodeAnswer {
    pub refusal: RefusalAnswer,
    pub address: u64,
}

impl From<Result<u64, Refusal>> for EncodeAnswer {
    ghost from_gives = { λ e r. r ≡ encode_answer e };

    fn from(e: Result<u64, Refusal>) -> EncodeAnswer {
        match e {
            Ok(address) => EncodeAnswer {
                refusal: OK,
                address,
            },
            Err(refusal) => EncodeAnswer {
                refusal: refusal.into(),
                address: 0,
            },
        }
    }
}

// The length of an address number's text; broadcast has none.
#[repr(C)]
#[derive(Clone, Copy)]
pub struct DecodeAnswer {
    pub refusal: RefusalAnswer,
    pub length: usize,
    pub broadcast: bool,
}

impl From<Result<Decoded, Refusal>> for DecodeAnswer {
    ghost from_gives = { λ d r. r ≡ decode_answer d };

    fn from(d: Result<Decoded, Refusal>) -> DecodeAnswer {
        match d {
            Ok(Decoded::Text(length)) => DecodeAnswer {
                refusal: OK,
                length,
                broadcast: false,
            },
            Ok(Decoded::Broadcast) => DecodeAnswer {
                refusal: OK,
                length: 0,
                broadcast: true,
            },
            Err(refusal) => DecodeAnswer {
                refusal: refusal.into(),
                length: 0,
                broadcast: false,
            },
        }
    }
}

// A tone's frequency in tenths of a hertz; 0 where there is none.
pub fn tenths_of(f: Option<u16>) -> u16
    ensures { result ≡ tenths_of f }
{
    f.unwrap_or(0)
}

// A tone's index; 255 where there is none.
pub fn index_number(i: Option<u8>) -> u8
    ensures { result ≡ index_number i }
{
    i.unwrap_or(255)
}

// A contact but for its name. Mode 1 is DMR (id, kind, rx tone), mode 2 is M17 (address, broadcast); the other mode's numbers are 0 in what is
// read, and unread in what is written.
#[repr(C)]
#[derive(Clone, Copy)]
pub struct ContactValues {
    pub address: u64,
    pub id: u32,
    pub mode: u8,
    pub contact_type: u8,
    pub rx_tone: bool,
    pub broadcast: bool,
}

// A channel's info. Mode 0 is FM (the tones), 1 DMR (colours, slot, contact), 2 M17 (access, operation, encryption, position, contact). Of
// colours and access the high nibble is for receive, the low for transmit.
#[repr(C)]
#[derive(Clone, Copy)]
pub struct ChannelInfo {
    pub contact: u16,
    pub mode: u8,
    pub receive_tone: u8,
    pub receive_tone_on: bool,
    pub transmit_tone: u8,
    pub transmit_tone_on: bool,
    pub colours: Nibbles,
    pub slot: u8,
    pub access: Nibbles,
    pub operation: u8,
    pub encryption: u8,
    pub position: bool,
}
