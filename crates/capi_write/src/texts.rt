// A text written as its field, and the empty codeplug.
ghost use Rattle.capi_write.specs.Texts.{TextFromC, EmptyToC};

use capi_numbers::RefusalAnswer;

// Writes a text field's 32 bytes.
pub fn write(out: &mut [u8], text: &[u8]) -> RefusalAnswer
    ensures { TextFromC out.old text.now result out.new }
{
    text_writer::write(out, text).into()
}

// Writes the empty codeplug's 88 bytes.
pub fn write_empty(out: &mut [u8]) -> RefusalAnswer
    ensures { EmptyToC out.old result out.new }
{
    empty_codeplug::write(out).into()
}
