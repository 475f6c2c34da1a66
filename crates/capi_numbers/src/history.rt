// How many entries a history holds.
ghost use Rattle.std.specs.Prelude.{◌≡◌};
ghost use Rattle.journal.specs.Entry.{entries_of};
ghost use Rattle.journal.specs.History.{number_of_entries};
ghost use Rattle.capi_numbers.specs.History.{history_answer};

use crate::{OK, RefusalAnswer};
use format::refusals::{Reason, Refusal};

// The number of entries; 0 beside a refusal.
#[repr(C)]
#[derive(Clone, Copy)]
pub struct HistoryAnswer {
    pub refusal: RefusalAnswer,
    pub entries: usize,
}

impl From<Option<usize>> for HistoryAnswer {
    ghost from_gives = { λ h r. r ≡ history_answer h };

    fn from(h: Option<usize>) -> HistoryAnswer {
        match h {
            Some(entries) => HistoryAnswer {
                refusal: OK,
                entries,
            },
            None => {
                let refusal = Refusal {
                    reason: Reason::BadHistory,
                    place: 0,
                };
                HistoryAnswer {
                    refusal: refusal.into(),
                    entries: 0,
                }
            }
        }
    }
}

// How many entries bytes hold, as an answer.
pub fn entries(history: &[u8]) -> HistoryAnswer
    ensures { result ≡ history_answer (number_of_entries (entries_of history.now)) }
{
    journal::scan::history_entries(history).into()
}
