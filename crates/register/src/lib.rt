// The register of parameters: which lengths a value may have, for each identifier in either group.
#![tactic(auto)]

ghost use Rattle.std.specs.Prelude.{◌≡◌, ◌<◌};
ghost use Rattle.register.specs.Groups.{group_octet, GroupRead};
ghost use Rattle.register.specs.Register.{row, Allows, Multiple, Told, Rows};

use crate::rows::ROWS;

mod rows;

// The two groups of an exchange field, in the order in which they stand.
#[derive(Clone, Copy, PartialEq, Eq, PartialOrd, Ord, Debug)]
pub enum Group {
    Public = 0x80,
    Private = 0xF0,
}

// No group has this identifier.
#[derive(Clone, Copy, PartialEq, Eq, Debug)]
pub struct NoGroup;

// A row of the register: how many octets a value may have; so many times four or six, at least once.
#[derive(Clone, Copy, PartialEq, Eq, Debug)]
pub enum Lengths {
    Any,
    Exactly { octets: u8 },
    AtLeast { octets: u8 },
    Fours,
    Sixes,
}

impl Group {
    // The group's identifier.
    pub fn octet(self) -> u8
        ensures { result ≡ group_octet self }
    {
        self as u8
    }
}

impl TryFrom<u8> for Group {
    type Error = NoGroup;

    ghost try_from_gives = { GroupRead };

    fn try_from(octet: u8) -> Result<Group, NoGroup> {
        match octet {
            0x80 => Ok(Group::Public),
            0xF0 => Ok(Group::Private),
            _ => Err(NoGroup),
        }
    }
}

// The row of an identifier.
pub fn row_of(group: Group, identifier: u8) -> Lengths
    ensures { result ≡ row group identifier }
{
    row_in(&ROWS, group, identifier)
}

// Whether the register has a value of so many octets.
pub fn allows(group: Group, identifier: u8, octets: usize) -> bool
    ensures { Told (Allows (row group identifier) octets) result }
{
    match row_of(group, identifier) {
        Lengths::Any => true,
        Lengths::Exactly { octets: exactly } => octets == exactly as usize,
        Lengths::AtLeast { octets: least } => octets >= least as usize,
        Lengths::Fours => is_multiple(octets, 4),
        Lengths::Sixes => is_multiple(octets, 6),
    }
}

// The row of an identifier, in a table that follows the register.
fn row_in(rows: &[Lengths; 512], group: Group, identifier: u8) -> Lengths
    requires { Rows rows.now }
    ensures { result ≡ row group identifier }
{
    match group {
        Group::Public => rows[identifier as usize],
        Group::Private => rows[256 + identifier as usize],
    }
}

fn is_multiple(octets: usize, each: usize) -> bool
    requires { 0 < each }
    ensures { Told (Multiple each octets) result }
{
    octets > 0 && octets.is_multiple_of(each)
}
