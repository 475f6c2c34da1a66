// Contacts, channels, a text field and the empty codeplug written over the beginning of a buffer.
ghost use Rattle.m17.specs.Edition.{edition_of};
ghost use Rattle.capi_write.specs.Contacts.{ContactFromC};
ghost use Rattle.capi_write.specs.Channels.{ChannelFromC};
ghost use Rattle.capi_write.specs.Texts.{TextFromC, EmptyToC};

// Writes a contact's 39 bytes.
#[unsafe(no_mangle)]
pub extern "C" fn codeplug_write_contact(
    out: &mut [u8],
    name: &[u8],
    values: capi_numbers::ContactValues,
    edition: u32,
) -> capi_numbers::RefusalAnswer
    ensures { ContactFromC (edition_of edition) out.old name.now values result out.new }
{
    capi::write::codeplug_write_contact(out, name, values, edition)
}

// Writes a channel's 90 bytes.
#[unsafe(no_mangle)]
pub extern "C" fn codeplug_write_channel(
    out: &mut [u8],
    name: &[u8],
    description: &[u8],
    common: channel::Common,
    info: capi_numbers::ChannelInfo,
) -> capi_numbers::RefusalAnswer
    ensures { ChannelFromC out.old name.now description.now common info result out.new }
{
    capi::write::codeplug_write_channel(out, name, description, common, info)
}

// Writes a text field's 32 bytes.
#[unsafe(no_mangle)]
pub extern "C" fn codeplug_write_text(out: &mut [u8], text: &[u8]) -> capi_numbers::RefusalAnswer
    ensures { TextFromC out.old text.now result out.new }
{
    capi::write::codeplug_write_text(out, text)
}

// Writes the empty codeplug's 88 bytes.
#[unsafe(no_mangle)]
pub extern "C" fn codeplug_write_empty(out: &mut [u8]) -> capi_numbers::RefusalAnswer
    ensures { EmptyToC out.old result out.new }
{
    capi::write::codeplug_write_empty(out)
}
