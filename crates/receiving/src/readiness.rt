ghost use Rattle.entries.specs.Histories.{codes_of};
ghost use Rattle.journal.specs.Lists.{owned};
ghost use Rattle.receiving.specs.Readiness.{place, ready, sound};
ghost use Rattle.std.specs.Prelude.{◌≡◌, Ok};

use cabinet::Cabinet;
use entries::is_list_faultless;
use journal::Journal;
use orders::OrderKind;
use refusal::Refusal;

// 1 for a table outside its bounds or with more cabinets than owners, 2 for a cabinet that is not in it.
pub fn check_place(cabinets: u8, owners: u16, number: u8) -> Result<(), Refusal>
    ensures { result ≡ place cabinets owners number }
{
    if !(1..=16).contains(&cabinets) || owners < cabinets as u16 {
        return Err(Refusal::OutOfBounds);
    }
    if number < cabinets {
        Ok(())
    } else {
        Err(Refusal::NoCabinet)
    }
}

// Whether the record goes with the cabinet's list, and the list with the epoch that the record accepted.
fn is_sound<K: OrderKind, J: Journal>(
    cabinets: u8,
    number: u8,
    cabinet: &Cabinet,
    journal: &J,
) -> Result<bool, Refusal>
    ensures { result ≡ owned (J.owners journal.now) number (Ok (sound (codes_of K.decode) cabinets (J.limit journal.now) number (J.lists journal.now number) cabinet.now)) }
{
    let owner = number as u16;
    let length = journal.length(owner)?;
    let faultless = is_list_faultless::<K, J>(cabinets, cabinet.accepted, journal, owner)?;
    Ok(cabinet.is_sound(number, length) && faultless)
}

// 2 for a cabinet without a list, 6 for one that is stopped, 8 for one that is not sound.
pub fn check_ready<K: OrderKind, J: Journal>(
    cabinets: u8,
    number: u8,
    cabinet: &Cabinet,
    journal: &J,
) -> Result<(), Refusal>
    ensures { result ≡ owned (J.owners journal.now) number (ready (codes_of K.decode) cabinets (J.limit journal.now) number (J.lists journal.now number) cabinet.now) }
{
    if number as u16 >= journal.owners() {
        return Err(Refusal::NoCabinet);
    }
    if !cabinet.running {
        return Err(Refusal::Stopped);
    }
    if is_sound::<K, J>(cabinets, number, cabinet, journal)? {
        Ok(())
    } else {
        Err(Refusal::Unsound)
    }
}
