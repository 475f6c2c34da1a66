// Channels read, as their lines have them.
use crate::print::{NONE, form};
use bits::signed_byte;
use channel::{Channel, Common, DmrInfo, FmInfo, Info, Location, M17Info};
use program_io::print::{refused, text, word};
use std::io::{Result, Write};
use tones::Tone;

fn mode<W: Write>(out: &mut W, i: Info) -> Result<()> {
    match i {
        Info::Fm(_) => word(out, b"fm"),
        Info::Dmr(_) => word(out, b"dmr"),
        Info::M17(_) => word(out, b"m17"),
    }
}

fn common<W: Write>(out: &mut W, c: Common) -> Result<()> {
    let numbers = [
        c.traits.bandwidth as u64,
        c.traits.receive_only as u64,
        c.power as u64,
        c.receive_hz as u64,
        c.transmit_hz as u64,
        c.scan_list as u64,
        c.group_list as u64,
    ];
    form(
        out,
        b" bandwidth=# rxonly=# power=# rx=# tx=# scan=# group=#",
        &numbers,
    )
}

fn signed(z: i8) -> u64 {
    let b = signed_byte(z) as u64;
    if b < 128 { b } else { 18446744073709551360 + b }
}

fn location<W: Write>(out: &mut W, l: Location) -> Result<()> {
    let numbers = [
        signed(l.latitude),
        l.latitude_e4 as u64,
        signed(l.longitude),
        l.longitude_e4 as u64,
        l.altitude_plus_500 as u64,
    ];
    form(out, b" lat=# latfrac=# lon=# lonfrac=# alt=#", &numbers)
}

fn frequency(index: u8) -> u64 {
    tones::frequency_of(index).map_or(NONE, |x| x as u64)
}

fn tone_numbers<W: Write>(out: &mut W, enabled: u64, index: u8) -> Result<()> {
    let numbers = [enabled, index as u64, frequency(index)];
    form(out, b"#:#:#", &numbers)
}

fn tone<W: Write>(out: &mut W, t: Tone) -> Result<()> {
    match t {
        Tone::Enabled(i) => tone_numbers(out, 1, i),
        Tone::Disabled(i) => tone_numbers(out, 0, i),
    }
}

fn fm<W: Write>(out: &mut W, i: FmInfo) -> Result<()> {
    let receive = i.receive;
    let transmit = i.transmit;
    word(out, b" rxtone=")?;
    tone(out, receive)?;
    word(out, b" txtone=")?;
    tone(out, transmit)
}

fn called(c: Option<u16>) -> u64 {
    match c {
        None => NONE,
        Some(x) => x as u64,
    }
}

fn dmr<W: Write>(out: &mut W, i: DmrInfo) -> Result<()> {
    let contact = i.contact;
    let numbers = [
        i.colours.high as u64,
        i.colours.low as u64,
        i.slot as u64,
        called(contact),
    ];
    form(out, b" rxcolour=# txcolour=# slot=# contact=#", &numbers)
}

fn m17<W: Write>(out: &mut W, i: M17Info) -> Result<()> {
    let contact = i.contact;
    let numbers = [
        i.access.high as u64,
        i.access.low as u64,
        i.operation as u64,
        i.encryption as u64,
        i.position as u64,
        called(contact),
    ];
    form(
        out,
        b" rxcan=# txcan=# operation=# encryption=# position=# contact=#",
        &numbers,
    )
}

fn info<W: Write>(out: &mut W, i: Info) -> Result<()> {
    match i {
        Info::Fm(f) => fm(out, f),
        Info::Dmr(d) => dmr(out, d),
        Info::M17(m) => m17(out, m),
    }
}

fn show<W: Write>(out: &mut W, c: Channel) -> Result<()> {
    let name = c.name;
    let description = c.description;
    let values = c.common;
    let own = c.info;
    mode(out, own)?;
    common(out, values)?;
    text(out, b" name=", &name)?;
    text(out, b" desc=", &description)?;
    location(out, values.location)?;
    info(out, own)
}

pub(crate) fn read<W: Write>(out: &mut W, record: &[u8]) -> Result<()> {
    match channel_reader::read(record) {
        Ok(channel) => show(out, channel),
        Err(refusal) => refused(out, refusal.reason.number(), refusal.place),
    }
}
