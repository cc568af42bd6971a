//! How a journal begins.

ghost use Rattle.std.specs.Prelude.{◌≡◌};
ghost use Rattle.lw_json.specs.Journal.{is_journal};

/// What a journal begins with: the head of its first line.
const JOURNAL_START: &[u8] = b"{\"format\":3,";

/// Whether the bytes are those of a journal.
pub fn is_journal(bytes: &[u8]) -> bool
    ensures { result ≡ is_journal bytes.now }
{
    bytes.starts_with(JOURNAL_START)
}
