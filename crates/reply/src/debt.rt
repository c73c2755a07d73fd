// A reply that is owed.
use frame::Address;

// To whom, and from whom: the two addresses of the command. It is spent by replying or by declining, and in no other way: it cannot be let
// go, copied, or made outside this crate.
pub struct Debt {
    pub(crate) to: Address,
    pub(crate) from: Address,
}
