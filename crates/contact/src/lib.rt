// Contact records of 39 bytes: their types and the settings byte (document 01, "The file").
#![tactic(auto)]

pub mod settings_byte; // settings_byte.rt: the settings byte of a DMR contact

use m17::Address;

// The modes, and below the contact types, are numbers and no enum: a record may hold any byte there, and the writer takes any type and refuses it (`contact_writer::write`).
pub const DMR: u8 = 1;

pub const M17: u8 = 2;

// The contact types of a DMR contact.
pub const GROUP: u8 = 0;

pub const PRIVATE: u8 = 1;

pub const ALL_CALL: u8 = 2;

#[derive(Clone, Copy)]
pub struct Settings {
    pub contact_type: u8,
    pub rx_tone: bool,
}

#[derive(Clone, Copy)]
pub struct DmrContact {
    pub id: u32,
    pub settings: Settings,
}

#[derive(Clone, Copy)]
pub enum ContactInfo {
    M17(Address),
    Dmr(DmrContact),
}

// The name stands as in the file: a text, then zeros.
#[derive(Clone, Copy)]
pub struct Contact {
    pub name: [u8; 32],
    pub info: ContactInfo,
}
