ghost use Rattle.std.specs.Prelude.{◌≡◌};
ghost use Rattle.cabinet.specs.Records.{follows, promises, raised, stop_step, start_step, Changed};

use crate::{Cabinet, FOLLOWS};
use refusal::Refusal;

impl Cabinet {
    // Takes role 0.
    pub fn follow(&mut self)
        ensures { self.new ≡ follows self.old }
    {
        self.role = FOLLOWS;
        self.gathered = 0;
        self.acknowledged = [0; 16];
    }

    // Refused by 6 where it is stopped.
    pub fn stop(&mut self) -> Result<(), Refusal>
        ensures { Changed self.old self.new result (stop_step self.old) }
    {
        if !self.running {
            return Err(Refusal::Stopped);
        }
        self.follow();
        self.running = false;
        Ok(())
    }

    // Refused by 7 where it is running.
    pub fn start(&mut self) -> Result<(), Refusal>
        ensures { Changed self.old self.new result (start_step self.old) }
    {
        if self.running {
            return Err(Refusal::Running);
        }
        self.running = true;
        Ok(())
    }

    // Notes that a cabinet holds so many entries, unless it is known to hold more.
    pub fn raise(&mut self, cabinet: u8, length: u16)
        ensures { self.new ≡ raised cabinet length self.old }
    {
        if cabinet < 16 {
            let known = self.acknowledged[cabinet as usize];
            self.acknowledged[cabinet as usize] = known.max(length);
        }
    }

    // Promises an epoch, and follows.
    pub fn promise(&mut self, epoch: u32)
        ensures { self.new ≡ promises epoch self.old }
    {
        self.follow();
        self.promised = epoch;
    }
}
