// Checking items in order.
ghost use Rattle.composer.specs.Checking.{ItemsChecked, ItemChecked};

use crate::checked::{Checked, Totals};
use crate::{ComposeError, Item};
use records::read_value;
use register::{Group, allows};

// Checks the items in order, and sums their octets up by group.
pub(crate) fn check_items<'a>(
    items: &'a [Item],
    values: &'a [u8],
) -> Result<Checked<'a>, ComposeError>
    ensures { ItemsChecked items.now values.now result }
{
    if items.len() > 255 {
        return Err(ComposeError::TooManyItems);
    }
    let mut totals = Totals {
        public: 0,
        private: 0,
    };
    for (index, item) in items.iter().enumerate() {
        match check_item(index, item, values, totals.private > 0)? {
            Group::Public => totals.public += 2 + item.length,
            Group::Private => totals.private += 2 + item.length,
        }
    }
    Ok(Checked {
        items,
        values,
        totals,
    })
}

// The group of an item that may stand behind those before it.
fn check_item(
    index: usize,
    item: &Item,
    values: &[u8],
    behind_private: bool,
) -> Result<Group, ComposeError>
    ensures { ItemChecked index item.now values.now behind_private result }
{
    let value = values
        .get(item.place..)
        .and_then(|rest| rest.get(..item.length))
        .filter(|value| value.len() <= 255)
        .ok_or(ComposeError::ValueOutside { item: index })?;
    let Ok(group) = Group::try_from(item.group) else {
        return Err(ComposeError::GroupOrder { item: index });
    };
    if behind_private && group == Group::Public {
        return Err(ComposeError::GroupOrder { item: index });
    }
    if !allows(group, item.identifier, value.len())
        || read_value(group, item.identifier, value).is_none()
    {
        return Err(ComposeError::Unreadable { item: index });
    }
    Ok(group)
}
