// Round trips through the code, for every kind: what the laws of a kind are for.
ghost use Rattle.std.specs.Prelude.{◌≡◌, is_some};
ghost use Rattle.orders.specs.Kinds.{if_proper, or_refused, code_answer};

use crate::OrderKind;
use refusal::Refusal;

// An order coded and read again: a proper one comes back as itself.
pub fn reread<K: OrderKind>(order: K) -> Result<K, Refusal>
    ensures { result ≡ or_refused (if_proper K.proper order) }
{
    K::from_code(order.code()?)
}

// A number read as an order and coded again: one that is read comes back as itself.
pub fn recode<K: OrderKind>(code: u64) -> Result<u64, Refusal>
    ensures { result ≡ code_answer (is_some (K.decode code)) code }
{
    K::from_code(code)?.code()
}
