ghost use Rattle.std.specs.Prelude.{◌≡◌};
ghost use Rattle.cabinet.specs.Records.{holders};

use crate::Cabinet;

impl Cabinet {
    // The cabinets that acknowledged more than so many entries.
    pub fn holders(&self, entries: u16) -> u16
        ensures { result ≡ holders self.now entries }
    {
        let mut set: u16 = 0;
        for (i, held) in self.acknowledged.iter().enumerate() {
            set += u16::from(entries < *held) << i;
        }
        set
    }
}
