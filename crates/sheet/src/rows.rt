ghost use Rattle.std.specs.Prelude.{◌≡◌, ◌*◌, length};
ghost use Rattle.journal.specs.Makes.{Laid, measure_answer};
ghost use Rattle.sheet.specs.Lawful.{sheet_laws};
ghost use Rattle.sheet.specs.Meaning.{limit_of, lists_of, owners_of};

use crate::{Rows, Sheet};
use journal::{Entry, Journal};
use refusal::Refusal;

// Whether a sheet can be made: 1 for a number outside its bounds, 3 for too little memory.
pub fn measure(rows: &[Entry], lengths: &[u16], owners: usize, limit: usize) -> Result<(), Refusal>
    ensures { result ≡ measure_answer owners limit (owners * limit) (length rows.now) (length lengths.now) }
{
    Rows::measure(rows, lengths, owners, limit)
}

// The empty sheet over this memory; where `measure` refuses, a sheet without owners and with limit 2.
pub fn lay<'a>(
    rows: &'a mut [Entry],
    lengths: &'a mut [u16],
    owners: usize,
    limit: usize,
) -> Sheet<'a>
    ensures { Laid owners_of limit_of lists_of result owners limit
        (measure_answer owners limit (owners * limit) (length rows.old) (length lengths.old)) }
{
    Sheet {
        rows: Rows::lay(rows, lengths, owners, limit),
    }
}

impl Journal for Sheet<'_> {
    ghost owners = { owners_of };

    ghost limit = { limit_of };

    ghost lists = { lists_of };

    ghost laws = { sheet_laws };

    fn owners(&self) -> u16 {
        self.rows.owners()
    }

    fn limit(&self) -> u16 {
        self.rows.limit()
    }

    fn length(&self, owner: u16) -> Result<u16, Refusal> {
        Ok(self.rows.used(owner)?.len() as u16)
    }

    fn entry(&self, owner: u16, position: u16) -> Result<Entry, Refusal> {
        let row = self.rows.row(owner)?;
        if position as usize >= row.used {
            return Err(Refusal::NoPosition);
        }
        Ok(self.rows.places[row.start + position as usize])
    }

    fn append(&mut self, owner: u16, entry: Entry) -> Result<(), Refusal> {
        // Here and in the reel: a helper over `Journal` is refused within the impl, as its call leads back to it.
        let row = self.rows.row(owner)?;
        if row.used >= self.limit() as usize {
            return Err(Refusal::Full);
        }
        self.rows.places[row.start + row.used] = entry;
        self.rows.counts[owner as usize] = row.used as u16 + 1;
        Ok(())
    }

    fn keep(&mut self, owner: u16, count: u16) -> Result<(), Refusal> {
        if count > self.length(owner)? {
            return Err(Refusal::ListShort);
        }
        self.rows.counts[owner as usize] = count;
        Ok(())
    }
}
