// An owner's list becomes a history.
ghost use Rattle.std.specs.Prelude.{◌≡◌};
ghost use Rattle.journal.specs.Lists.{Relisted};
ghost use Rattle.entries.specs.Entries.{entries_of};
ghost use Rattle.entries.specs.Replacing.{replace_answer, replace_lists};

use crate::spelling::{entry_in, parts};
use journal::Journal;
use refusal::Refusal;

// The owner's list becomes the entries that bytes spell.
// Refused by 2 where there is no such owner, by 41 where the entries are more than the limit.
pub fn replace<J: Journal>(journal: &mut J, owner: u16, bytes: &[u8]) -> Result<(), Refusal>
    ensures answer { result ≡ replace_answer (J.owners journal.old) (J.limit journal.old) owner (entries_of bytes.now) }
    ensures journal { Relisted J.owners J.limit J.lists journal.old journal.new (replace_lists (J.owners journal.old) (J.limit journal.old) (J.lists journal.old) owner (entries_of bytes.now)) }
{
    if owner >= journal.owners() {
        return Err(Refusal::NoCabinet);
    }
    let parts = parts(bytes);
    if parts.len() > journal.limit() as usize {
        return Err(Refusal::Full);
    }
    journal.keep(owner, 0)?;
    for part in parts {
        journal.append(owner, entry_in(part))?;
    }
    Ok(())
}
