ghost use Rattle.std.specs.Prelude.{◌≡◌, ◌+◌, ◌*◌, length};
ghost use Rattle.journal.specs.Makes.{Laid, measure_answer};
ghost use Rattle.shelf.specs.Rows.{Used, Within, row_answer, shelf_limit, shelf_owners, used_of};

use crate::{Row, Shelf};
use journal::{LEAST_LIMIT, check_bounds};
use refusal::Refusal;

impl<'a, T, const SPARE: u8> Shelf<'a, T, SPARE> {
    // Whether a shelf can be made: 1 for a number outside its bounds, 3 for too little memory.
    pub fn measure(places: &[T], counts: &[u16], owners: usize, limit: usize) -> Result<(), Refusal>
        ensures { result ≡ measure_answer owners limit (owners * (limit + SPARE)) (length places.now) (length counts.now) }
    {
        check_bounds(owners, limit)?;
        let width = limit + SPARE as usize;
        if places.len() < owners * width || counts.len() < owners {
            return Err(Refusal::NoTray);
        }
        Ok(())
    }

    // The empty shelf over this memory; where `measure` refuses, a shelf without owners and with limit 2: no `Result`,
    // since a make never fails, and who does not ask `measure` first gets a journal that refuses every call.
    pub fn lay(places: &'a mut [T], counts: &'a mut [u16], owners: usize, limit: usize) -> Self
        ensures { Laid shelf_owners shelf_limit used_of result owners limit
            (measure_answer owners limit (owners * (limit + SPARE)) (length places.old) (length counts.old)) }
    {
        match Self::measure(places, counts, owners, limit) {
            Ok(()) => {
                counts.fill(0);
                Shelf {
                    places,
                    counts,
                    owners: owners as u16,
                    limit: limit as u16,
                }
            }
            Err(_) => Shelf {
                places,
                counts,
                owners: 0,
                limit: LEAST_LIMIT as u16,
            },
        }
    }

    pub fn owners(&self) -> u16
        ensures { result ≡ shelf_owners self.now }
    {
        self.owners
    }

    pub fn limit(&self) -> u16
        ensures { result ≡ shelf_limit self.now }
    {
        self.limit
    }

    // Refused by 2 where there is no such owner.
    pub fn row(&self, owner: u16) -> Result<Row, Refusal>
        ensures answer { result ≡ row_answer self.now owner }
        ensures within { Within self.now owner result }
    {
        if owner >= self.owners {
            return Err(Refusal::NoCabinet);
        }
        let width = self.limit as usize + SPARE as usize;
        let start = owner as usize * width;
        Ok(Row {
            start,
            end: start + width,
            used: (self.counts[owner as usize] as usize).min(width),
        })
    }

    // The owner's places that are in use; refused by 2 where there is no such owner.
    pub fn used(&self, owner: u16) -> Result<&[T], Refusal>
        ensures { Used self.now owner result }
    {
        let Row { start, used, .. } = self.row(owner)?;
        Ok(&self.places[start..start + used])
    }
}
