// A parameter as it is read.
use records::Record;
use register::Group;

// A parameter with its value as a part of the field, and what the value says.
#[derive(Clone, Copy, PartialEq, Eq, Debug)]
pub struct Parameter<'a> {
    pub group: Group,
    pub identifier: u8,
    pub value: &'a [u8],
    pub record: Record<'a>,
}
