// A channel's value to its bytes: a buffer that is too short, then the fields in order; a refusal changes nothing.
#![tactic(auto)]

ghost use Rattle.std.specs.Prelude.{◌≡◌, ◌++◌, length, take, drop};
ghost use Rattle.fields.specs.Bytes.{zeros, over};
ghost use Rattle.channel_writer.specs.Writing.{head_write_rule, location_write_rule, info_write_rule, channel_write_rule, head_bytes, location_bytes, info_bytes, channel_bytes, channel_written};
ghost use Rattle.channel.specs.Values.{mode_number};
ghost use Rattle.fields.specs.Rule.{Valid};

use bits::{
    Nibbles, NumberFlag, nibbles_byte, nibbles_valid, number_flag_byte, number_flag_valid,
    signed_byte,
};
use channel::values::{
    contact_index_number, fraction_ok, latitude_fraction_ok, latitude_ok, operation_ok, slot_ok,
};
use channel::{Common, DmrInfo, FmInfo, Info, Location, M17Info};
use fields::put::{put, put_byte, put_le16, put_le32};
use fields::rule::unless;
use format::refusals::{Reason, Refusal};
use format::sizes::{CHANNEL_SIZE, DMR_CONTACT_AT, M17_CONTACT_AT};
use text::given_ok;
use tones::{tone_byte, tone_valid};

#[tactic(auto, unfolding(crate::specs::Writing::head_write_rule), using(fields::proofs::Laws::ok_then, fields::proofs::Laws::err_then))]
fn validate_head(c: Common) -> Result<(), Refusal>
    ensures { result ≡ head_write_rule c }
{
    let t = c.traits;
    unless(number_flag_valid(NumberFlag::from(t)), Reason::Value, 1)?;
    unless(c.scan_list <= 250, Reason::Value, 11)?;
    unless(c.group_list <= 128, Reason::Value, 12)
}

#[tactic(auto, unfolding(crate::specs::Writing::location_write_rule), using(fields::proofs::Laws::ok_then, fields::proofs::Laws::err_then, crate::proofs::WriteLaws::i8_passed, crate::proofs::WriteLaws::i8_byte))]
fn validate_location(l: Location) -> Result<(), Refusal>
    ensures { result ≡ location_write_rule l }
{
    let floor = signed_byte(l.latitude);
    unless(latitude_ok(floor), Reason::Value, 77)?;
    unless(
        latitude_fraction_ok(floor, l.latitude_e4),
        Reason::Value,
        78,
    )?;
    unless(fraction_ok(l.longitude_e4), Reason::Value, 81)
}

#[tactic(auto, unfolding(crate::specs::Writing::info_write_rule), using(fields::proofs::Laws::ok_then, fields::proofs::Laws::err_then))]
fn validate_fm(i: FmInfo) -> Result<(), Refusal>
    ensures { result ≡ info_write_rule (Info.Fm i) }
{
    let receive = i.receive;
    let transmit = i.transmit;
    unless(tone_valid(receive), Reason::Value, 85)?;
    unless(tone_valid(transmit), Reason::Value, 86)
}

#[tactic(auto, unfolding(crate::specs::Writing::info_write_rule), using(fields::proofs::Laws::ok_then, fields::proofs::Laws::err_then))]
fn validate_dmr(i: DmrInfo) -> Result<(), Refusal>
    ensures { result ≡ info_write_rule (Info.Dmr i) }
{
    unless(nibbles_valid(i.colours), Reason::Value, 85)?;
    unless(slot_ok(i.slot), Reason::Value, 86)
}

#[tactic(auto, unfolding(crate::specs::Writing::info_write_rule), using(fields::proofs::Laws::ok_then, fields::proofs::Laws::err_then))]
fn validate_m17(i: M17Info) -> Result<(), Refusal>
    ensures { result ≡ info_write_rule (Info.M17 i) }
{
    unless(nibbles_valid(i.access), Reason::Value, 85)?;
    unless(operation_ok(i.operation, i.encryption), Reason::Value, 86)
}

fn validate_info(info: Info) -> Result<(), Refusal>
    ensures { result ≡ info_write_rule info }
{
    match info {
        Info::Fm(i) => validate_fm(i),
        Info::Dmr(i) => validate_dmr(i),
        Info::M17(i) => validate_m17(i),
    }
}

// What a writer refuses of these values and a buffer of so many bytes.
#[tactic(auto, unfolding(crate::specs::Writing::channel_write_rule), using(fields::proofs::Laws::ok_then, fields::proofs::Laws::err_then))]
pub fn validate(
    size: usize,
    name: &[u8],
    description: &[u8],
    common: Common,
    info: Info,
) -> Result<(), Refusal>
    ensures { result ≡ channel_write_rule size name.now description.now common info }
{
    unless(CHANNEL_SIZE <= size, Reason::ShortBuffer, 0)?;
    validate_head(common)?;
    unless(given_ok(name), Reason::Text, 13)?;
    unless(given_ok(description), Reason::Text, 45)?;
    validate_location(common.location)?;
    validate_info(info)
}

fn mode_number(info: Info) -> u8
    ensures { result ≡ mode_number info }
{
    match info {
        Info::Fm(_) => channel::FM,
        Info::Dmr(_) => channel::DMR,
        Info::M17(_) => channel::M17,
    }
}

fn put_head(dst: &mut [u8], mode: u8, c: Common)
    requires { (length dst.old ≡ 90) × (head_write_rule c ≡ Valid) }
    ensures { dst.new ≡ over dst.old 0 (head_bytes mode c) }
{
    let t = c.traits;
    put_byte(dst, 0, mode);
    put_byte(dst, 1, number_flag_byte(NumberFlag::from(t)));
    put_byte(dst, 2, c.power);
    put_le32(dst, 3, c.receive_hz);
    put_le32(dst, 7, c.transmit_hz);
    put_byte(dst, 11, c.scan_list);
    put_byte(dst, 12, c.group_list);
}

fn put_location(dst: &mut [u8], l: Location)
    requires { length dst.old ≡ 90 }
    ensures { dst.new ≡ over dst.old 77 (location_bytes l) }
{
    put_byte(dst, 77, signed_byte(l.latitude));
    put_le16(dst, 78, l.latitude_e4);
    put_byte(dst, 80, signed_byte(l.longitude));
    put_le16(dst, 81, l.longitude_e4);
    put_le16(dst, 83, l.altitude_plus_500);
}

// The info goes into a record that is zero from there on, so that its pads come out zero.
fn put_fm(dst: &mut [u8], i: FmInfo)
    requires { (length dst.old ≡ 90) × ((drop 85 dst.old ≡ zeros 5) × (info_write_rule (Info.Fm i) ≡ Valid)) }
    ensures { dst.new ≡ take 85 dst.old ++ info_bytes (Info.Fm i) }
{
    let receive = i.receive;
    let transmit = i.transmit;
    put_byte(dst, 85, tone_byte(receive));
    put_byte(dst, 86, tone_byte(transmit));
}

fn put_dmr(dst: &mut [u8], i: DmrInfo)
    requires { (length dst.old ≡ 90) × ((drop 85 dst.old ≡ zeros 5) × (info_write_rule (Info.Dmr i) ≡ Valid)) }
    ensures { dst.new ≡ take 85 dst.old ++ info_bytes (Info.Dmr i) }
{
    let contact = i.contact;
    put_byte(dst, 85, nibbles_byte(i.colours));
    put_byte(dst, 86, i.slot);
    put_le16(dst, DMR_CONTACT_AT, contact_index_number(contact));
}

fn put_m17(dst: &mut [u8], i: M17Info)
    requires { (length dst.old ≡ 90) × ((drop 85 dst.old ≡ zeros 5) × (info_write_rule (Info.M17 i) ≡ Valid)) }
    ensures { dst.new ≡ take 85 dst.old ++ info_bytes (Info.M17 i) }
{
    let h = Nibbles {
        high: i.operation,
        low: i.encryption,
    };
    let contact = i.contact;
    put_byte(dst, 85, nibbles_byte(i.access));
    put_byte(dst, 86, nibbles_byte(h));
    put_byte(dst, 87, i.position as u8);
    put_le16(dst, M17_CONTACT_AT, contact_index_number(contact));
}

fn put_info(dst: &mut [u8], info: Info)
    requires { (length dst.old ≡ 90) × ((drop 85 dst.old ≡ zeros 5) × (info_write_rule info ≡ Valid)) }
    ensures { dst.new ≡ take 85 dst.old ++ info_bytes info }
{
    match info {
        Info::Fm(i) => put_fm(dst, i),
        Info::Dmr(i) => put_dmr(dst, i),
        Info::M17(i) => put_m17(dst, i),
    }
}

// The record, from 90 zeros.
fn channel_bytes(name: &[u8], description: &[u8], common: Common, info: Info) -> [u8; CHANNEL_SIZE]
    requires { channel_write_rule 90 name.now description.now common info ≡ Valid }
    ensures { result ≡ channel_bytes name.now description.now common info }
{
    let mut r = [0u8; CHANNEL_SIZE];
    put_head(&mut r, mode_number(info), common);
    put(&mut r, 13, name);
    put(&mut r, 45, description);
    put_location(&mut r, common.location);
    put_info(&mut r, info);
    r
}

// Writes a channel over the beginning of a buffer.
#[tactic(auto, unfolding(crate::specs::Writing::channel_written), using(fields::proofs::Laws::written_ok, fields::proofs::Laws::written_err, crate::proofs::WriteLaws::rule_in_90, crate::proofs::WriteLaws::rule_fits))]
pub fn write(
    out: &mut [u8],
    name: &[u8],
    description: &[u8],
    common: Common,
    info: Info,
) -> Result<(), Refusal>
    ensures { (result ≡ channel_write_rule (length out.old) name.now description.now common info)
        × (out.new ≡ channel_written out.old name.now description.now common info) }
{
    validate(out.len(), name, description, common, info)?;
    let r = channel_bytes(name, description, common, info);
    put(out, 0, &r);
    Ok(())
}
