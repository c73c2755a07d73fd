// Where a reader stands in its field, and its moves: over the leading octet, over a group's header, over a parameter.
ghost use Rattle.std.specs.Prelude.{◌≡◌, ◌-◌, length};
ghost use Rattle.xid.specs.Moving.{Led, GroupBegun, ParameterTaken};
ghost use Rattle.xid.specs.Parameters.{ParameterRead};
ghost use Rattle.xid.specs.Stands.{unread};

use crate::parameter::Parameter;
use faults::{ExchangeFault, ParameterFault};
use records::read_value;
use register::{Group, allows};

// The group in hand, and its octets not yet read.
#[derive(Clone, Copy, PartialEq, Eq, Debug)]
pub struct Open<'a> {
    pub group: Group,
    pub rest: &'a [u8],
}

// The group in hand, and the octets behind it; before the first group, all that follow.
#[derive(Clone, Copy, PartialEq, Eq, Debug)]
pub struct Cursor<'a> {
    pub open: Option<Open<'a>>,
    pub behind: &'a [u8],
}

// A parameter, and where the reader stands behind it.
#[derive(Clone, Copy, PartialEq, Eq, Debug)]
pub struct Taken<'a> {
    pub parameter: Parameter<'a>,
    pub behind: Cursor<'a>,
}

impl<'a> Cursor<'a> {
    // How many octets of the field are read.
    pub fn place(self, field: &[u8]) -> usize
        ensures { result ≡ length field.now - length (unread self.entry) }
    {
        let in_hand = self.open.map_or(0, |open| open.rest.len());
        field.len().saturating_sub(in_hand + self.behind.len())
    }

    // Behind the leading octet.
    pub fn led(field: &'a [u8]) -> Result<Cursor<'a>, ExchangeFault>
        ensures { Led field.now result }
    {
        let [0x82, behind @ ..] = field else {
            return Err(ExchangeFault::NoLeading);
        };
        Ok(Cursor { open: None, behind })
    }

    // Over a group's header; none where no octet follows.
    pub fn begin_group(self, place: usize) -> Result<Option<Cursor<'a>>, ExchangeFault>
        ensures { GroupBegun place self.entry result }
    {
        if self.behind.is_empty() {
            return Ok(None);
        }
        let [octet, high, low, rest @ ..] = self.behind else {
            return Err(ExchangeFault::ShortGroup { place });
        };
        let Ok(group) = Group::try_from(*octet) else {
            return Err(ExchangeFault::OtherGroup { place });
        };
        // no group is repeated, and public never comes behind private
        if self.open.is_some_and(|open| group <= open.group) {
            return Err(ExchangeFault::GroupOrder { place });
        }
        let length = usize::from(u16::from_be_bytes([*high, *low]));
        let Some((rest, behind)) = rest.split_at_checked(length) else {
            return Err(ExchangeFault::GroupBeyond { place });
        };
        let open = Some(Open { group, rest });
        Ok(Some(Cursor { open, behind }))
    }

    // Over a parameter; none where the group in hand is whole.
    pub fn take_parameter(self, place: usize) -> Result<Option<Taken<'a>>, ExchangeFault>
        ensures { ParameterTaken place self.entry result }
    {
        let Some(open) = self.open.filter(|open| !open.rest.is_empty()) else {
            return Ok(None);
        };
        let [identifier, length, rest @ ..] = open.rest else {
            return Err(ExchangeFault::ParameterBeyond { place });
        };
        let Some((value, rest)) = rest.split_at_checked(usize::from(*length)) else {
            return Err(ExchangeFault::ParameterBeyond { place });
        };
        let parameter = read_parameter(place, open.group, *identifier, value)?;
        let open = Some(Open { rest, ..open });
        let behind = Cursor { open, ..self };
        Ok(Some(Taken { parameter, behind }))
    }
}

// A parameter that the register and its layout allow.
fn read_parameter<'a>(
    place: usize,
    group: Group,
    identifier: u8,
    value: &'a [u8],
) -> Result<Parameter<'a>, ParameterFault>
    ensures { ParameterRead place group identifier value.now result }
{
    if !allows(group, identifier, value.len()) {
        return Err(ParameterFault::WrongLength { place });
    }
    let Some(record) = read_value(group, identifier, value) else {
        return Err(ParameterFault::WrongValue { place });
    };
    Ok(Parameter {
        group,
        identifier,
        value,
        record,
    })
}
