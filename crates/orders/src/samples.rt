ghost use Rattle.orders.specs.Samples.{proper, encode, decode};
ghost use Rattle.orders.specs.Lawful.{sample_reads_back, sample_reads_codes_only, sample_codes_differ, sample_codes_fit};

use crate::{OrderKind, Sample, codes};
use refusal::Refusal;

impl OrderKind for Sample {
    ghost proper = { proper };

    ghost encode = { encode };

    ghost decode = { decode };

    ghost reads_back = { sample_reads_back };

    ghost reads_codes_only = { sample_reads_codes_only };

    ghost codes_differ = { sample_codes_differ };

    ghost codes_fit = { sample_codes_fit };

    fn is_proper(self) -> bool {
        (1..=6).contains(&self.juice) && self.reading <= 10_000
    }

    fn code(self) -> Result<u64, Refusal> {
        let code = codes::join(self.number, self.juice, self.reading);
        self.is_proper().then_some(code).ok_or(Refusal::NotProper)
    }

    fn from_code(code: u64) -> Result<Sample, Refusal> {
        let order = Sample {
            number: codes::low(code),
            juice: codes::middle(code),
            reading: u16::try_from(codes::high(code)).map_err(|_| Refusal::NotProper)?,
        };
        order.is_proper().then_some(order).ok_or(Refusal::NotProper)
    }
}
