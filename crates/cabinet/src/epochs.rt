ghost use Rattle.std.specs.Prelude.{◌≡◌, ◌<◌};
ghost use Rattle.cabinet.specs.Epochs.{epoch_answer, next_epoch, later, SmallestAbove};

use refusal::Refusal;

// The epoch at which a cabinet that promised one stands next; 37 where there is none.
pub fn next_epoch(promised: u32, cabinet: u8) -> Result<u32, Refusal>
    ensures answer { result ≡ epoch_answer promised cabinet }
    ensures smallest { cabinet < 16 → SmallestAbove promised cabinet (next_epoch promised cabinet) }
{
    let promised = promised as u64;
    let owner = promised % 16;
    let cabinet = cabinet as u64;
    let round = if owner < cabinet { 0 } else { 16 };
    u32::try_from(promised - owner + cabinet + round).map_err(|_| Refusal::EpochsSpent)
}

// Whether one's own pair of accepted epoch and length is later than the other, epoch first.
pub fn is_later(own: (u32, u16), other: (u32, u16)) -> bool
    ensures { result ≡ later own other }
{
    other < own
}
