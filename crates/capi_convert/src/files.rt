// What validation answers, the header, a bank, and an entry.
ghost use Rattle.std.specs.Prelude.{◌≡◌, ◌≤◌, length};
ghost use Rattle.codeplug.specs.Read.{header_answer, bank_answer};
ghost use Rattle.capi_convert.specs.Files.{validate_answer, header_to_c, HeaderOut, bank_to_c, BankOut, entry_to_c};
ghost use Rattle.fields.specs.Rule.{Valid};

use crate::texts::{put_name, put_texts};
use capi_numbers::{OK, RefusalAnswer};
use codeplug::{Bank, Header};
use entries::EntryStep;
use format::refusals::Refusal;
use layout::Counts;

#[repr(C)]
#[derive(Clone, Copy)]
pub struct ValidateAnswer {
    pub refusal: RefusalAnswer,
    pub counts: Counts,
}

#[repr(C)]
#[derive(Clone, Copy)]
pub struct HeaderAnswer {
    pub refusal: RefusalAnswer,
    pub timestamp: u64,
    pub counts: Counts,
}

#[repr(C)]
#[derive(Clone, Copy)]
pub struct BankAnswer {
    pub refusal: RefusalAnswer,
    pub entries: u16,
}

#[repr(C)]
#[derive(Clone, Copy)]
pub struct BankEntryAnswer {
    pub refusal: RefusalAnswer,
    pub channel: u16,
    pub next: usize,
}

impl From<Result<Counts, Refusal>> for ValidateAnswer {
    ghost from_gives = { λ j r. r ≡ validate_answer j };

    fn from(j: Result<Counts, Refusal>) -> ValidateAnswer {
        match j {
            Ok(counts) => ValidateAnswer {
                refusal: OK,
                counts,
            },
            Err(refusal) => ValidateAnswer {
                refusal: refusal.into(),
                counts: codeplug::read::NO_COUNTS,
            },
        }
    }
}

impl From<Result<Header, Refusal>> for HeaderAnswer {
    ghost from_gives = { λ read r. r ≡ header_to_c read };

    #[tactic(auto, unfolding(crate::specs::Files::header_to_c, codeplug::specs::Read::blank_header))]
    fn from(read: Result<Header, Refusal>) -> HeaderAnswer {
        match read {
            Ok(header) => HeaderAnswer {
                refusal: OK,
                timestamp: header.timestamp,
                counts: header.counts,
            },
            Err(refusal) => HeaderAnswer {
                refusal: refusal.into(),
                timestamp: 0,
                counts: codeplug::read::NO_COUNTS,
            },
        }
    }
}

// The header of a file with this validity; author and description go into the buffer.
pub fn header_out(texts: &mut [u8], v: Result<(), Refusal>, f: &[u8]) -> HeaderAnswer
    requires { v ≡ Valid → 88 ≤ length f.now }
    ensures { HeaderOut (header_answer v f.now) texts.old result texts.new }
{
    codeplug::read::header_answer(put_texts(texts, v, f, 10), f).into()
}

impl From<Result<Bank, Refusal>> for BankAnswer {
    ghost from_gives = { λ read r. r ≡ bank_to_c read };

    #[tactic(auto, unfolding(crate::specs::Files::bank_to_c, codeplug::specs::Read::blank_bank))]
    fn from(read: Result<Bank, Refusal>) -> BankAnswer {
        match read {
            Ok(bank) => BankAnswer {
                refusal: OK,
                entries: bank.entries,
            },
            Err(refusal) => BankAnswer {
                refusal: refusal.into(),
                entries: 0,
            },
        }
    }
}

// A bank with this validity from its first 34 bytes; its name goes into the buffer.
pub fn bank_out(name: &mut [u8], v: Result<(), Refusal>, s: &[u8]) -> BankAnswer
    requires { v ≡ Valid → 34 ≤ length s.now }
    ensures { BankOut (bank_answer v s.now) name.old result name.new }
{
    codeplug::read::bank_answer(put_name(name, v, s), s).into()
}

impl From<Result<EntryStep, Refusal>> for BankEntryAnswer {
    ghost from_gives = { λ step r. r ≡ entry_to_c step };

    fn from(step: Result<EntryStep, Refusal>) -> BankEntryAnswer {
        match step {
            Ok(entry) => BankEntryAnswer {
                refusal: OK,
                channel: entry.channel,
                next: entry.next,
            },
            Err(refusal) => BankEntryAnswer {
                refusal: refusal.into(),
                channel: 0,
                next: 0,
            },
        }
    }
}
