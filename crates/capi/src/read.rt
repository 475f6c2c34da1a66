// Validation, and the readers of a file.
ghost use Rattle.std.specs.Prelude.{◌≡◌};
ghost use Rattle.m17.specs.Edition.{edition_of};
ghost use Rattle.validation.specs.Validation.{validation};
ghost use Rattle.codeplug.specs.Read.{header_read, contact_read, channel_read, bank_read, entry_read};
ghost use Rattle.codeplug.specs.Prevalidated.{contact_prevalidated, channel_prevalidated, bank_prevalidated, entries_prevalidated};
ghost use Rattle.entries.specs.Entry.{entry_step};
ghost use Rattle.capi_convert.specs.Files.{validate_answer, HeaderOut, BankOut, entry_to_c};
ghost use Rattle.capi_convert.specs.Contacts.{ContactOut};
ghost use Rattle.capi_convert.specs.Channels.{ChannelOut};

use capi_convert::channels::ChannelAnswer;
use capi_convert::contacts::ContactAnswer;
use capi_convert::files::{BankAnswer, BankEntryAnswer, HeaderAnswer, ValidateAnswer};
use m17::edition_of;

// Whether a file is accepted, with its counts; beside a refusal they are 0.
pub fn codeplug_validate(file: &[u8], edition: u32) -> ValidateAnswer
    ensures { result ≡ validate_answer (validation (edition_of edition) file.now) }
{
    validation::validate(file, edition_of(edition)).into()
}

// The header's numbers; author and description, 32 bytes each, go into the first 64 bytes of the buffer.
#[tactic(auto, unfolding(codeplug::specs::Read::header_read))]
pub fn codeplug_header(file: &[u8], texts: &mut [u8], edition: u32) -> HeaderAnswer
    ensures { HeaderOut (header_read (edition_of edition) file.now) texts.old result texts.new }
{
    capi_convert::files::header_out(
        texts,
        codeplug::read::header_validity(file, edition_of(edition)),
        file,
    )
}

// Contact n of a file; its name's 32 bytes go into the beginning of the buffer.
pub fn codeplug_contact(file: &[u8], n: usize, name: &mut [u8], edition: u32) -> ContactAnswer
    ensures { ContactOut (contact_read (edition_of edition) file.now n) name.old result name.new }
{
    let v = codeplug::read::contact_validity(file, n, edition_of(edition));
    capi_convert::contacts::contact_out(name, v, codeplug::bytes::contact_bytes(file, n, v))
}

// The same of a file that was validated before, without validating it again.
pub fn codeplug_contact_prevalidated(
    file: &[u8],
    n: usize,
    name: &mut [u8],
    edition: u32,
) -> ContactAnswer
    ensures { ContactOut (contact_prevalidated (edition_of edition) file.now n) name.old result name.new }
{
    let v = prevalidated::contact_validity(file, n, edition_of(edition));
    capi_convert::contacts::contact_out(name, v, codeplug::bytes::contact_bytes(file, n, v))
}

// Channel n of a file; name and description, 32 bytes each, go into the first 64 bytes of the buffer.
pub fn codeplug_channel(file: &[u8], n: usize, texts: &mut [u8], edition: u32) -> ChannelAnswer
    ensures { ChannelOut (channel_read (edition_of edition) file.now n) texts.old result texts.new }
{
    let v = codeplug::read::channel_validity(file, n, edition_of(edition));
    capi_convert::channels::channel_out(texts, v, codeplug::bytes::channel_bytes(file, n, v))
}

// The same of a file that was validated before, without validating it again.
pub fn codeplug_channel_prevalidated(file: &[u8], n: usize, texts: &mut [u8]) -> ChannelAnswer
    ensures { ChannelOut (channel_prevalidated file.now n) texts.old result texts.new }
{
    let v = prevalidated::channel_validity(file, n);
    capi_convert::channels::channel_out(texts, v, codeplug::bytes::channel_bytes(file, n, v))
}

// Bank n's entry count; its name's 32 bytes go into the beginning of the buffer.
pub fn codeplug_bank(file: &[u8], n: usize, name: &mut [u8], edition: u32) -> BankAnswer
    ensures { BankOut (bank_read (edition_of edition) file.now n) name.old result name.new }
{
    let v = codeplug::read::bank_validity(file, n, edition_of(edition));
    capi_convert::files::bank_out(name, v, codeplug::bytes::bank_bytes(file, n, v))
}

// The same of a file that was validated before, without validating it again.
pub fn codeplug_bank_prevalidated(file: &[u8], n: usize, name: &mut [u8]) -> BankAnswer
    ensures { BankOut (bank_prevalidated file.now n) name.old result name.new }
{
    let v = prevalidated::bank_validity(file, n);
    capi_convert::files::bank_out(name, v, codeplug::bytes::bank_bytes(file, n, v))
}

// Entry i of a bank: its channel's index, and the next place; 0 both beside a refusal.
pub fn codeplug_bank_entry(file: &[u8], bank: usize, i: usize, edition: u32) -> BankEntryAnswer
    ensures { result ≡ entry_to_c (entry_read (edition_of edition) file.now bank i) }
{
    codeplug::bank_entries::entry(file, bank, i, edition_of(edition)).into()
}

// The same of a file that was validated before, without validating it again.
pub fn codeplug_bank_entry_prevalidated(file: &[u8], bank: usize, i: usize) -> BankEntryAnswer
    ensures { result ≡ entry_to_c (entry_step (entries_prevalidated file.now bank) i) }
{
    entries::walked(prevalidated::entries(file, bank), i).into()
}
