// Reader and writer belong together: what is written reads back, and what was read is written as it came.
#![tactic(auto)]

ghost use Rattle.entries.specs.Histories.{codes_of};
ghost use Rattle.roundtrip.specs.Trips.{ReadsBack, WritesBack};

use orders::OrderKind;

// A message written as a frame reads back as itself: the contract is the theorem, and the call does nothing.
pub fn reads_back<K: OrderKind>()
    ensures { ReadsBack (codes_of K.decode) }
{}

// An accepted frame, written again, gives its own bytes.
pub fn writes_back<K: OrderKind>()
    ensures { WritesBack (codes_of K.decode) }
{}
