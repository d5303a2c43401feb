// The layout that the codes of both kinds share: a word of 32 bits, a byte above it, and the rest.
ghost use Rattle.std.specs.Prelude.{◌≡◌};
ghost use Rattle.orders.specs.Codes.{joined, low_of, middle_of, high_of};

pub(crate) fn join(low: u32, middle: u8, high: u16) -> u64
    ensures { result ≡ joined low middle high }
{
    low as u64 + ((middle as u64) << 32) + ((high as u64) << 40)
}

pub(crate) fn low(code: u64) -> u32
    ensures { result ≡ low_of code }
{
    (code % (1 << 32)) as u32
}

pub(crate) fn middle(code: u64) -> u8
    ensures { result ≡ middle_of code }
{
    ((code >> 32) % (1 << 8)) as u8
}

pub(crate) fn high(code: u64) -> u64
    ensures { result ≡ high_of code }
{
    code >> 40
}
