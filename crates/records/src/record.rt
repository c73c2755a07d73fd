// Parameter values as typed records.
ghost use Rattle.records.specs.Values.{shape, identified, tuned, aircraft, ground};
ghost use Rattle.records.specs.Records.{ValueRead};

use crate::values::{Frequencies, Location, Stations, Tuning};
use register::Group;

// What a value says, by its parameter: set identification (private 00h), tuning (40h), stations (41h, 82h), frequencies with their
// stations (C0h), an aircraft's place with its altitude in thousands of feet (84h), a ground station's place (C8h), or octets without a layout.
#[derive(Clone, Copy, PartialEq, Eq, Debug)]
pub enum Record<'a> {
    SetIdentification,
    Tuned { tuning: Tuning },
    Listed { stations: Stations<'a> },
    Supported { frequencies: Frequencies<'a> },
    Aircraft { location: Location, altitude: u8 },
    Ground { location: Location },
    Unlaid { octets: &'a [u8] },
}

// The record of a value, or none where the value is against its layout.
#[tactic(auto, unfolding(crate::specs::Values::shape))]
pub fn read_value<'a>(group: Group, identifier: u8, value: &'a [u8]) -> Option<Record<'a>>
    ensures { ValueRead (shape group identifier) value.now result }
{
    match group {
        Group::Public => Some(Record::Unlaid { octets: value }),
        Group::Private => match identifier {
            0x00 => set_identification(value),
            0x40 => tuned(value),
            0x41 | 0x82 => Stations::read(value).map(|stations| Record::Listed { stations }),
            0xC0 => Frequencies::read(value).map(|frequencies| Record::Supported { frequencies }),
            0x84 => aircraft(value),
            0xC8 => ground(value),
            _ => Some(Record::Unlaid { octets: value }),
        },
    }
}

fn set_identification<'a>(value: &'a [u8]) -> Option<Record<'a>>
    ensures { ValueRead identified value.now result }
{
    match value {
        [0x56] => Some(Record::SetIdentification),
        _ => None,
    }
}

fn tuned<'a>(value: &'a [u8]) -> Option<Record<'a>>
    ensures { ValueRead tuned value.now result }
{
    let [high, low] = value else {
        return None;
    };
    let tuning = Tuning::decode(*high, *low);
    Some(Record::Tuned { tuning })
}

fn aircraft<'a>(value: &'a [u8]) -> Option<Record<'a>>
    ensures { ValueRead aircraft value.now result }
{
    let [first, second, third, altitude] = value else {
        return None;
    };
    Some(Record::Aircraft {
        location: Location::decode(*first, *second, *third)?,
        altitude: *altitude,
    })
}

fn ground<'a>(value: &'a [u8]) -> Option<Record<'a>>
    ensures { ValueRead ground value.now result }
{
    let [first, second, third] = value else {
        return None;
    };
    let location = Location::decode(*first, *second, *third)?;
    Some(Record::Ground { location })
}
