ghost use Rattle.entries.specs.Histories.{codes_of};
ghost use Rattle.questions.specs.Questions.{asked};
ghost use Rattle.std.specs.Prelude.{◌≡◌};

use cabinet::Cabinet;
use journal::Journal;
use orders::OrderKind;
use receiving::{check_place, check_ready};
use refusal::Refusal;

// 1 and 2 for the place, 6 and 8 for the cabinet.
pub(crate) fn check<K: OrderKind, J: Journal>(
    cabinets: u8,
    number: u8,
    cabinet: &Cabinet,
    journal: &J,
) -> Result<(), Refusal>
    ensures { result ≡ asked (codes_of K.decode) cabinets (J.owners journal.now) (J.limit journal.now) number (J.lists journal.now number) cabinet.now }
{
    check_place(cabinets, journal.owners(), number)?;
    check_ready::<K, J>(cabinets, number, cabinet, journal)
}
