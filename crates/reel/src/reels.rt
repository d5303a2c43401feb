// A reel for each owner, as a journal.
ghost use Rattle.std.specs.Prelude.{◌≡◌, ◌+◌, ◌*◌, length, Ok};
ghost use Rattle.journal.specs.Lists.{Relisted, owned};
ghost use Rattle.journal.specs.Makes.{Laid, measure_answer};
ghost use Rattle.reel.specs.Lawful.{reel_laws};
ghost use Rattle.reel.specs.Meaning.{add_lists, limit_of, lists_of, owners_of, replays};
ghost use Rattle.shelf.specs.Rows.{shelf_limit, shelf_owners};

use crate::{Records, Reel};
use journal::{Entry, Journal};
use records::{Record, find, live, push};
use refusal::Refusal;

// Whether a reel can be made: 1 for a number outside its bounds, 3 for too little memory.
pub fn measure(records: &[Record], used: &[u16], owners: usize, limit: usize) -> Result<(), Refusal>
    ensures { result ≡ measure_answer owners limit (owners * (limit + 1)) (length records.now) (length used.now) }
{
    Records::measure(records, used, owners, limit)
}

// The empty reel over this memory; where `measure` refuses, a reel without owners and with limit 2.
pub fn lay<'a>(
    records: &'a mut [Record],
    used: &'a mut [u16],
    owners: usize,
    limit: usize,
) -> Reel<'a>
    ensures { Laid owners_of limit_of lists_of result owners limit
        (measure_answer owners limit (owners * (limit + 1)) (length records.old) (length used.old)) }
{
    Reel {
        records: Records::lay(records, used, owners, limit),
    }
}

// Adds a record to the owner's, rewriting them first where none is free.
fn add(records: &mut Records<'_>, owner: u16, made: Record) -> Result<(), Refusal>
    ensures answer { result ≡ owned (shelf_owners records.old) owner (Ok tt) }
    ensures journal { Relisted shelf_owners shelf_limit replays records.old records.new (add_lists (shelf_owners records.old) (shelf_limit records.old) (replays records.old) owner made) }
{
    let row = records.row(owner)?;
    let limit = records.limit();
    let used = push(
        limit,
        &mut records.places[row.start..row.end],
        row.used,
        made,
    )?;
    records.counts[owner as usize] = used as u16;
    Ok(())
}

impl Journal for Reel<'_> {
    ghost owners = { owners_of };

    ghost limit = { limit_of };

    ghost lists = { lists_of };

    ghost laws = { reel_laws };

    fn owners(&self) -> u16 {
        self.records.owners()
    }

    fn limit(&self) -> u16 {
        self.records.limit()
    }

    fn length(&self, owner: u16) -> Result<u16, Refusal> {
        Ok(live(self.limit(), self.records.used(owner)?))
    }

    fn entry(&self, owner: u16, position: u16) -> Result<Entry, Refusal> {
        find(self.limit(), self.records.used(owner)?, position)
    }

    fn append(&mut self, owner: u16, entry: Entry) -> Result<(), Refusal> {
        // Here and in the sheet: a helper over `Journal` is refused within the impl, as its call leads back to it.
        if self.length(owner)? >= self.limit() {
            return Err(Refusal::Full);
        }
        add(&mut self.records, owner, Record::Append(entry))
    }

    fn keep(&mut self, owner: u16, count: u16) -> Result<(), Refusal> {
        if count > self.length(owner)? {
            return Err(Refusal::ListShort);
        }
        add(&mut self.records, owner, Record::Keep(count))
    }
}
