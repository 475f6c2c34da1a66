// A history by itself.
ghost use Rattle.std.specs.Prelude.{◌≡◌};
ghost use Rattle.journal.specs.Entry.{entries_of};
ghost use Rattle.journal.specs.History.{number_of_entries};
ghost use Rattle.capi_numbers.specs.History.{history_answer};

// How many entries a history holds; 0 beside a refusal.
#[unsafe(no_mangle)]
pub extern "C" fn codeplug_history_entries(history: &[u8]) -> capi_numbers::history::HistoryAnswer
    ensures { result ≡ history_answer (number_of_entries (entries_of history.now)) }
{
    capi::history::codeplug_history_entries(history)
}
