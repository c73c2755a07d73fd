// Addresses: a kind and a number of 24 bits, and their four octets.
ghost use Rattle.std.specs.Prelude.{◌≡◌, ◌%◌, ◌<◌, true, false, ◌==◌};
ghost use Rattle.frame.specs.Addresses.{type_bits, address_number, septet as laid, address_octets, address_error_number, Listed, AddressMade, AddressRead};
ghost use Rattle.frame.specs.Parts.{MarksRead};

// What an address names: each kind is its type's three bits.
#[derive(Clone, Copy, PartialEq, Eq, Debug)]
pub enum Kind {
    Aircraft = 1,
    GroundAdministered = 4,
    GroundDelegated = 5,
    Broadcast = 7,
}

// The number's three octets, the highest first: every value of this type is an address.
#[derive(Clone, Copy, PartialEq, Eq, Debug)]
pub struct Address {
    pub kind: Kind,
    pub high: u8,
    pub middle: u8,
    pub low: u8,
}

// An address with the status bit that stands beside it in a frame.
#[derive(Clone, Copy, PartialEq, Eq, Debug)]
pub struct Addressed {
    pub address: Address,
    pub status: bool,
}

// Why there is no such address.
#[derive(Clone, Copy, PartialEq, Eq, Debug)]
pub enum AddressError {
    UnlistedType,
    NumberTooLarge,
}

impl AddressError {
    pub fn number(self) -> u8
        ensures { result ≡ address_error_number self }
    {
        match self {
            AddressError::UnlistedType | AddressError::NumberTooLarge => 24,
        }
    }
}

impl Kind {
    pub fn bits(self) -> u8
        ensures { result ≡ type_bits self }
    {
        self as u8
    }
}

impl TryFrom<u8> for Kind {
    type Error = AddressError;

    ghost try_from_gives = { Listed };

    fn try_from(bits: u8) -> Result<Kind, AddressError> {
        match bits {
            1 => Ok(Kind::Aircraft),
            4 => Ok(Kind::GroundAdministered),
            5 => Ok(Kind::GroundDelegated),
            7 => Ok(Kind::Broadcast),
            _ => Err(AddressError::UnlistedType),
        }
    }
}

impl Address {
    // An address from its type's bits and its number.
    pub fn new(kind: u8, number: u32) -> Result<Address, AddressError>
        ensures { AddressMade kind number result }
    {
        let kind = Kind::try_from(kind)?;
        let [0, high, middle, low] = number.to_be_bytes() else {
            return Err(AddressError::NumberTooLarge);
        };
        Ok(Address {
            kind,
            high,
            middle,
            low,
        })
    }

    pub fn number(self) -> u32
        ensures { result ≡ address_number self }
    {
        u32::from_be_bytes([0, self.high, self.middle, self.low])
    }

    // The four octets with a status bit.
    pub fn octets(self, status: bool) -> [u8; 4]
        ensures { result ≡ address_octets status self }
    {
        let word = u32::from_be_bytes([
            u8::from(status) * 8 + self.kind.bits(),
            self.high,
            self.middle,
            self.low,
        ]);
        [
            septet(false, word >> 21),
            septet(false, word >> 14),
            septet(false, word >> 7),
            septet(true, word),
        ]
    }

    // The address whose octets these are, with its status bit.
    pub fn decode(octets: [u8; 4]) -> Option<Addressed>
        ensures { AddressRead octets result }
    {
        if wrong_mark(octets).is_some() {
            return None;
        }
        let [first, second, third, fourth] = octets;
        let upper = bits_of(first) * 128 + bits_of(second);
        let word = (upper * 128 + bits_of(third)) * 128 + bits_of(fourth);
        let [top, high, middle, low] = word.to_be_bytes();
        let kind = Kind::try_from(top % 8).ok()?;
        let address = Address {
            kind,
            high,
            middle,
            low,
        };
        Some(Addressed {
            address,
            status: top / 8 == 1,
        })
    }
}

// The first of an address's octets whose bit 1 is wrong: it is 1 in the fourth alone.
pub(crate) fn wrong_mark(octets: [u8; 4]) -> Option<usize>
    ensures { MarksRead octets result }
{
    let [first, second, third, fourth] = octets;
    match [first % 2, second % 2, third % 2, fourth % 2] {
        [1, ..] => Some(0),
        [_, 1, ..] => Some(1),
        [_, _, 1, _] => Some(2),
        [.., 0] => Some(3),
        _ => None,
    }
}

// The lowest seven bits, most significant first, behind the mark.
fn septet(mark: bool, bits: u32) -> u8
    ensures { result ≡ laid mark bits }
{
    ((bits & 0x7F) as u8).reverse_bits() | u8::from(mark)
}

// The seven bits behind the mark.
fn bits_of(octet: u8) -> u32
    ensures { (laid (octet % 2 == 1) result ≡ octet) × (result < 128) }
{
    u32::from(octet.reverse_bits() & 0x7F)
}
