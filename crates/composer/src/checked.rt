// What checking makes of items.
ghost use Rattle.std.specs.Prelude.{◌≡◌, ◌+◌, ◌≤◌, All};
ghost use Rattle.register.specs.declared.Group.{Group};
ghost use Rattle.composer.specs.Composing.{params_of};
ghost use Rattle.composer.specs.Sizes.{ItemRight, group_size, total_of};

use crate::Item;
use register::Group;

// How many octets the parameters of each group take.
#[derive(Clone, Copy)]
pub struct Totals {
    pub public: usize,
    pub private: usize,
}

impl Totals {
    pub(crate) fn of(self, group: Group) -> usize
        ensures { result ≡ total_of self group }
    {
        match group {
            Group::Public => self.public,
            Group::Private => self.private,
        }
    }
}

// Items that may stand in a field one behind the other, the values that they name, and their sums.
#[derive(Clone, Copy)]
pub(crate) struct Checked<'a> {
    pub(crate) items: &'a [Item],
    pub(crate) values: &'a [u8],
    pub(crate) totals: Totals,
    ghost each: { All (ItemRight values.now) items.now },
    ghost sums: { (g : Group) → total_of totals g ≡ group_size g (params_of items.now values.now) },
    ghost few: { totals.public + totals.private ≤ 65535 },
}
