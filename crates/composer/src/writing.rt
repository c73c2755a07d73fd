// Writing checked items, group by group.
ghost use Rattle.std.specs.Prelude.{◌≡◌, ◌+◌, ◌≤◌, length};
ghost use Rattle.bits.specs.Buffers.{over};
ghost use Rattle.xid.specs.Fields.{param_octets};
ghost use Rattle.composer.specs.Composing.{field_octets, param_of};
ghost use Rattle.composer.specs.Checking.{params, group_of};
ghost use Rattle.composer.specs.Sizes.{ItemRight};

use crate::Item;
use crate::checked::Checked;
use register::Group;

impl Checked<'_> {
    // How many octets the field has.
    pub(crate) fn length(&self) -> usize
        ensures { result ≡ length (field_octets (params self.now)) }
    {
        1 + self.group_length(Group::Public) + self.group_length(Group::Private)
    }

    // A group with its header; nothing where no item is of the group.
    fn group_length(&self, group: Group) -> usize
        ensures { result ≡ length (group_of self.now group) }
    {
        match self.totals.of(group) {
            0 => 0,
            octets => 3 + octets,
        }
    }

    // A group's header, and behind it the items of the group in order; nothing where there are none. Answers how many octets.
    pub(crate) fn write_group(&self, group: Group, out: &mut [u8]) -> usize
        requires room { length (group_of self.now group) ≤ length out.old }
        ensures end { result ≡ length (group_of self.now group) }
        ensures written { out.new ≡ over (group_of self.now group) out.old }
    {
        let octets = self.totals.of(group);
        if octets == 0 {
            return 0;
        }
        let [high, low] = (octets as u16).to_be_bytes();
        out[0] = group.octet();
        out[1] = high;
        out[2] = low;
        let mut end = 3;
        for item in self.items {
            if item.group == group.octet() {
                end += self.write_item(item, &mut out[end..]);
            }
        }
        end
    }

    // Identifier, length and value; answers how many octets.
    fn write_item(&self, item: &Item, out: &mut [u8]) -> usize
        requires right { ItemRight self.now.values.now item.now }
        requires room { 2 + item.now.length ≤ length out.old }
        ensures end { result ≡ 2 + item.now.length }
        ensures written { out.new ≡ over (param_octets (param_of self.now.values.now item.now)) out.old }
    {
        let end = 2 + item.length;
        out[0] = item.identifier;
        out[1] = item.length as u8;
        out[2..end].copy_from_slice(&self.values[item.place..item.place + item.length]);
        end
    }
}
