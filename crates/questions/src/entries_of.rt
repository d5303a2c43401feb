ghost use Rattle.entries.specs.Histories.{codes_of};
ghost use Rattle.questions.specs.Questions.{committed_answer};
ghost use Rattle.std.specs.Prelude.{◌≡◌};

use crate::readiness::check;
use cabinet::Cabinet;
use journal::{Entry, Journal};
use orders::OrderKind;
use refusal::Refusal;

// The entry at a committed position: 50 for one at the mark or past it.
pub fn committed<K: OrderKind, J: Journal>(
    cabinets: u8,
    number: u8,
    cabinet: &Cabinet,
    journal: &J,
    position: u16,
) -> Result<Entry, Refusal>
    ensures { result ≡ committed_answer (codes_of K.decode) cabinets (J.owners journal.now) (J.limit journal.now) number (J.lists journal.now number) cabinet.now position }
{
    check::<K, J>(cabinets, number, cabinet, journal)?;
    if position < cabinet.mark {
        journal.entry(number as u16, position)
    } else {
        Err(Refusal::NoPosition)
    }
}
