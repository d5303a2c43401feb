ghost use Rattle.std.specs.Prelude.{◌≡◌, nat_le};
ghost use Rattle.std.specs.List.{list_all};
ghost use Rattle.cabinet.specs.Soundness.{role_sound, record_sound, none_above};

use crate::{Cabinet, FOLLOWS, LEADS, STANDS};

// Whether each length is at most the most.
fn are_within(lengths: &[u16], most: u16) -> bool
    ensures { result ≡ list_all (λ n. nat_le n most) lengths.now }
{
    lengths.iter().all(|length| *length <= most)
}

impl Cabinet {
    // Whether it stands or leads only at an epoch of its own, and leads only one that it accepted.
    fn has_sound_role(&self, cabinet: u8) -> bool
        ensures { result ≡ role_sound cabinet self.now }
    {
        let own = 0 < self.promised && self.promised % 16 == cabinet as u32;
        let leads = self.role == LEADS && self.promised <= self.accepted;
        self.role == FOLLOWS || own && (self.role == STANDS || leads)
    }

    // Whether no acknowledged length is above the most.
    fn none_above(&self, most: u16) -> bool
        ensures { result ≡ none_above self.now.acknowledged most 16 }
    {
        are_within(&self.acknowledged, most)
    }

    // Whether the record is one that the cabinet may have beside a list of that length.
    pub fn is_sound(&self, cabinet: u8, length: u16) -> bool
        ensures { result ≡ record_sound cabinet length self.now }
    {
        (1..=length).contains(&self.mark)
            && self.accepted <= self.promised
            && self.has_sound_role(cabinet)
            && self.none_above(length)
    }
}
