ghost use Rattle.std.specs.Prelude.{◌≡◌, ◌+◌, ◌*◌, ◌≤◌, length, Ok};
ghost use Rattle.refusal.specs.Answers.{and_then};
ghost use Rattle.receiving.specs.Readiness.{tray_length};
ghost use Rattle.station.specs.Acting.{said_answer, said_trays};

use cabinet::Reply;
use journal::Journal;
use receiving::tray_length;
use refusal::Refusal;
use writing::write_reply;

// Writes what a cabinet says into a tray; answers 0 and the frame's length.
pub(crate) fn say<J: Journal>(
    promised: u32,
    journal: &J,
    trays: &mut [u8],
    number: u8,
    tray: u8,
    reply: Reply,
) -> Result<(u8, u16), Refusal>
    requires { tray * tray_length (J.limit journal.now) + tray_length (J.limit journal.now) ≤ length trays.old }
    ensures answer { result ≡ and_then (said_answer (J.owners journal.now) number promised (J.lists journal.now number) reply (tray_length (J.limit journal.now)) tray trays.old) (λ n. Ok (0, n)) }
    ensures trays { trays.new ≡ said_trays (J.owners journal.now) number promised (J.lists journal.now number) reply (tray_length (J.limit journal.now)) tray trays.old }
{
    let size = tray_length(journal.limit());
    let at = tray as usize * size;
    let length = write_reply(
        number,
        promised,
        reply,
        journal,
        number as u16,
        &mut trays[at..at + size],
    )?;
    Ok((0, length))
}
