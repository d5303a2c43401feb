ghost use Rattle.std.specs.Prelude.{◌≡◌, length, Ok};
ghost use Rattle.cabinet.specs.Steps.{listed};

use crate::Cabinet;
use journal::Journal;
use refusal::Refusal;

impl Cabinet {
    // The length of the cabinet's list; 50 where it ends before the mark.
    pub fn list_length<J: Journal>(&self, number: u8, journal: &J) -> Result<u16, Refusal>
        ensures { result ≡ listed (J.owners journal.now) (J.lists journal.now) number self.now (Ok (length (J.lists journal.now number))) }
    {
        let length = journal.length(number as u16)?;
        if self.mark <= length {
            Ok(length)
        } else {
            Err(Refusal::NoPosition)
        }
    }
}
