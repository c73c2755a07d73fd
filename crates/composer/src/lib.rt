// Composing an exchange field from items whose values lie in one buffer.
#![tactic(auto)]

ghost use Rattle.std.specs.Prelude.{◌≡◌};
ghost use Rattle.composer.specs.Composing.{compose_number, Composed};

use crate::checking::check_items;
pub use checked::Totals;
use register::Group;

mod checked;
mod checking;
mod writing;

// The most octets that a field has.
const MOST_OCTETS: usize = 2052;

// A parameter to compose: the group's identifier, its own, and where its value lies in the value buffer.
#[derive(Clone, Copy, PartialEq, Eq, Debug)]
pub struct Item {
    pub group: u8,
    pub identifier: u8,
    pub place: usize,
    pub length: usize,
}

// Why items are not composed; an item is named by its index from 0.
#[derive(Clone, Copy, PartialEq, Eq, Debug)]
pub enum ComposeError {
    TooManyItems,
    ValueOutside { item: usize },
    GroupOrder { item: usize },
    Unreadable { item: usize },
    TooLong,
}

impl ComposeError {
    pub fn number(self) -> u8
        ensures { result ≡ compose_number self }
    {
        match self {
            ComposeError::TooManyItems => 51,
            ComposeError::ValueOutside { .. } => 52,
            ComposeError::GroupOrder { .. } => 53,
            ComposeError::Unreadable { .. } => 54,
            ComposeError::TooLong => 55,
        }
    }
}

// Writes the field at the front of `out` and answers its length.
pub fn compose(items: &[Item], values: &[u8], out: &mut [u8]) -> Result<usize, ComposeError>
    ensures { Composed items.now values.now out.old out.new result }
{
    let checked = check_items(items, values)?;
    let length = checked.length();
    if length > MOST_OCTETS || length > out.len() {
        return Err(ComposeError::TooLong);
    }
    out[0] = 0x82;
    let mut end = 1;
    for group in [Group::Public, Group::Private] {
        end += checked.write_group(group, &mut out[end..]);
    }
    Ok(end)
}
