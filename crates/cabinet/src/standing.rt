ghost use Rattle.std.specs.Prelude.{◌≡◌};
ghost use Rattle.cabinet.specs.Records.{only, stands, gathers, leads};

use crate::{Cabinet, LEADS, STANDS};

// The set of one cabinet.
fn only_one(cabinet: u8) -> u16
    ensures { result ≡ only cabinet }
{
    1u16.checked_shl(cabinet as u32).unwrap_or(0)
}

impl Cabinet {
    // Stands at an epoch, with itself alone gathered.
    pub fn stand(&mut self, cabinet: u8, epoch: u32)
        ensures { self.new ≡ stands cabinet epoch self.old }
    {
        self.promised = epoch;
        self.role = STANDS;
        self.gathered = only_one(cabinet);
    }

    // Gathers a cabinet's promise.
    pub fn gather(&mut self, cabinet: u8)
        ensures { self.new ≡ gathers cabinet self.old }
    {
        self.gathered |= only_one(cabinet);
    }

    // Leads the epoch that it promised, with a list of that length.
    pub fn lead(&mut self, cabinet: u8, length: u16)
        ensures { self.new ≡ leads cabinet length self.old }
    {
        self.accepted = self.promised;
        self.role = LEADS;
        self.acknowledged = [0; 16];
        self.raise(cabinet, length);
    }
}
