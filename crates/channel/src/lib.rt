// Channel records of 90 bytes: their types and single values (document 01, "The file").
#![tactic(auto)]

pub mod values; // values.rt: the rules of single values

use bits::Nibbles;
use tones::Tone;

// The modes, and below the bandwidths, are numbers and no enum: a record may hold any byte there, and the writer takes any bandwidth and refuses it (`channel_writer::write`).
pub const FM: u8 = 0;

pub const DMR: u8 = 1;

pub const M17: u8 = 2;

// The bandwidths: 12.5, 20 and 25 kHz.
pub const NARROW: u8 = 0;

pub const MEDIUM: u8 = 1;

pub const WIDE: u8 = 2;

// Laid out as in C, for bindings/c/include/codeplug.h: so are Location and Common.
#[repr(C)]
#[derive(Clone, Copy)]
pub struct Traits {
    pub bandwidth: u8,
    pub receive_only: bool,
}

// Degrees: a floor and ten-thousandths above it. The altitude is in metres plus 500, as the file has it.
#[repr(C)]
#[derive(Clone, Copy)]
pub struct Location {
    pub latitude_e4: u16,
    pub longitude_e4: u16,
    pub altitude_plus_500: u16,
    pub latitude: i8,
    pub longitude: i8,
}

// What a channel has whatever its mode, but for its texts. Frequencies are in hertz.
#[repr(C)]
#[derive(Clone, Copy)]
pub struct Common {
    pub receive_hz: u32,
    pub transmit_hz: u32,
    pub location: Location,
    pub traits: Traits,
    pub power: u8,
    pub scan_list: u8,
    pub group_list: u8,
}

#[derive(Clone, Copy)]
pub struct FmInfo {
    pub receive: Tone,
    pub transmit: Tone,
}

// Colour codes: receive in the high nibble. The contact that the channel calls, or none: a blank is not contact 0.
#[derive(Clone, Copy)]
pub struct DmrInfo {
    pub colours: Nibbles,
    pub slot: u8,
    pub contact: Option<u16>,
}

// Channel access numbers: receive in the high nibble. Operation: 1 voice, 2 data, 3 both. Encryption: 0 plain, 1 AES-256, 2 scrambler.
#[derive(Clone, Copy)]
pub struct M17Info {
    pub access: Nibbles,
    pub operation: u8,
    pub encryption: u8,
    pub position: bool,
    pub contact: Option<u16>,
}

#[derive(Clone, Copy)]
pub enum Info {
    Fm(FmInfo),
    Dmr(DmrInfo),
    M17(M17Info),
}

// The texts stand as in the file: a text, then zeros.
#[derive(Clone, Copy)]
pub struct Channel {
    pub name: [u8; 32],
    pub description: [u8; 32],
    pub common: Common,
    pub info: Info,
}
