ghost use Rattle.orders.specs.SetPoints.{proper, encode, decode};
ghost use Rattle.orders.specs.Lawful.{set_point_reads_back, set_point_reads_codes_only, set_point_codes_differ, set_point_codes_fit};

use crate::{OrderKind, SetPoint, codes};
use refusal::Refusal;

impl OrderKind for SetPoint {
    ghost proper = { proper };

    ghost encode = { encode };

    ghost decode = { decode };

    ghost reads_back = { set_point_reads_back };

    ghost reads_codes_only = { set_point_reads_codes_only };

    ghost codes_differ = { set_point_codes_differ };

    ghost codes_fit = { set_point_codes_fit };

    fn is_proper(self) -> bool {
        (1..=5).contains(&self.effect) && (1..=4).contains(&self.quantity)
    }

    fn code(self) -> Result<u64, Refusal> {
        let code = codes::join(
            self.value.cast_unsigned(),
            self.quantity,
            self.effect as u16,
        );
        self.is_proper().then_some(code).ok_or(Refusal::NotProper)
    }

    fn from_code(code: u64) -> Result<SetPoint, Refusal> {
        let order = SetPoint {
            effect: u8::try_from(codes::high(code)).map_err(|_| Refusal::NotProper)?,
            quantity: codes::middle(code),
            value: codes::low(code).cast_signed(),
        };
        order.is_proper().then_some(order).ok_or(Refusal::NotProper)
    }
}
