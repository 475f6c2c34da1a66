// Addresses and tones.
ghost use Rattle.std.specs.Prelude.{◌≡◌, length};
ghost use Rattle.m17.specs.Edition.{edition_of};
ghost use Rattle.m17.specs.Address.{encoding, decoding, decoded_into};
ghost use Rattle.tones.specs.Tone.{frequency_of, index_of};
ghost use Rattle.capi_numbers.specs.Numbers.{encode_answer, decode_answer, tenths_of, index_number};

use m17::edition_of;

// A callsign's address number; 0 beside a refusal.
pub fn codeplug_encode_callsign(text: &[u8], edition: u32) -> capi_numbers::EncodeAnswer
    ensures { result ≡ encode_answer (encoding (edition_of edition) text.now) }
{
    m17_encoder::encode(text, edition_of(edition)).into()
}

// An address number's text, into the first nine bytes of the buffer, and its length; broadcast has none.
pub fn codeplug_decode_address(
    address: u64,
    out: &mut [u8],
    edition: u32,
) -> capi_numbers::DecodeAnswer
    ensures { (result ≡ decode_answer (decoding (edition_of edition) (length out.old) address)) × (out.new ≡ decoded_into (edition_of edition) out.old address) }
{
    m17_decoder::decode(address, out, edition_of(edition)).into()
}

// The frequency of a tone, in tenths of a hertz; 0 past the table.
pub fn codeplug_tone_frequency(index: u8) -> u16
    ensures { result ≡ tenths_of (frequency_of index) }
{
    capi_numbers::tenths_of(tones::frequency_of(index))
}

// The index of a frequency; 255 where no tone has it.
pub fn codeplug_tone_index(tenths: u16) -> u8
    ensures { result ≡ index_number (index_of tenths) }
{
    capi_numbers::index_number(tones::index_of(tenths))
}
