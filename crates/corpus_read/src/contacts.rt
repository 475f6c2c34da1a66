// Contacts read, as their lines have them.
use contact::{Contact, ContactInfo, DmrContact};
use m17::{Address, Edition};
use program_io::print;
use std::io::{Result, Write};

fn m17<W: Write>(out: &mut W, a: Address, name: &[u8]) -> Result<()> {
    print::text(out, b"m17 name=", name)?;
    match a {
        Address::Callsign(n) => print::number(out, b" callsign=", n),
        Address::Broadcast => print::word(out, b" broadcast"),
    }
}

fn dmr<W: Write>(out: &mut W, d: DmrContact, name: &[u8]) -> Result<()> {
    print::text(out, b"dmr name=", name)?;
    print::number(out, b" id=", d.id as u64)?;
    print::number(out, b" type=", d.settings.contact_type as u64)?;
    print::number(out, b" rxtone=", d.settings.rx_tone as u64)
}

fn show<W: Write>(out: &mut W, c: Contact) -> Result<()> {
    let name = c.name;
    let info = c.info;
    match info {
        ContactInfo::Dmr(d) => dmr(out, d, &name),
        ContactInfo::M17(a) => m17(out, a, &name),
    }
}

pub(crate) fn read<W: Write>(out: &mut W, record: &[u8], edition: Edition) -> Result<()> {
    match contact_reader::read(record, edition) {
        Ok(contact) => show(out, contact),
        Err(refusal) => print::refused(out, refusal.reason.number(), refusal.place),
    }
}
