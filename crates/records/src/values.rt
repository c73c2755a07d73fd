// The values that have a layout.
ghost use Rattle.std.specs.Prelude.{◌≡◌, ◌+◌, ◌*◌, ◌<◌, [], ◌∷◌, refl};
ghost use Rattle.std.proofs.Common.{rules};
ghost use Rattle.frame.specs.Addresses.{IsAddress};
ghost use Rattle.records.specs.Values.{TuningRead, LocationRead, IsFrequency, station_octets, frequency_octets, TwelveRead};

use crate::entries::{Entries, Entry};
use frame::{Address, Addressed};

// A modulation and a frequency in steps of 10 kHz above 100,000 kHz.
#[derive(Clone, Copy, PartialEq, Eq, Debug)]
pub struct Tuning {
    pub modulation: u8,
    pub steps: u16,
}

// A place in tenths of a degree, north and east positive.
#[derive(Clone, Copy, PartialEq, Eq, Debug)]
pub struct Location {
    pub latitude: i16,
    pub longitude: i16,
}

// A ground station and the tuning to reach it.
#[derive(Clone, Copy, PartialEq, Eq, Debug)]
pub struct Frequency {
    pub tuning: Tuning,
    pub station: Address,
}

pub type Stations<'a> = Entries<'a, Address>;

pub type Frequencies<'a> = Entries<'a, Frequency>;

impl Tuning {
    pub fn kilohertz(self) -> u32
        ensures { result ≡ 100000 + 10 * self.steps }
    {
        100_000 + 10 * self.steps as u32
    }

    pub(crate) fn decode(high: u8, low: u8) -> Tuning
        ensures { TuningRead (high ∷ low ∷ []) result }
    {
        Tuning {
            modulation: high >> 4,
            steps: u16::from_be_bytes([high, low]) & 0x0FFF,
        }
    }
}

impl Location {
    // The place that three octets hold, within 90 degrees of latitude and 180 of longitude.
    pub(crate) fn decode(first: u8, second: u8, third: u8) -> Option<Location>
        ensures { LocationRead (first ∷ second ∷ third ∷ []) result }
    {
        let latitude = signed(u16::from_be_bytes([first, second]) >> 4);
        let longitude = signed(u16::from_be_bytes([second, third]) & 0x0FFF);
        if !(-900..=900).contains(&latitude) || !(-1800..=1800).contains(&longitude) {
            return None;
        }
        Some(Location {
            latitude,
            longitude,
        })
    }
}

// As an entry, an address is one of status 0.
impl Entry for Address {
    ghost Is = { IsAddress };

    ghost layout = { station_octets };

    ghost OCTETS = { 4 };

    const OCTETS: usize = 4;

    fn read(octets: &[u8]) -> Option<Address> {
        let Addressed { address, status } = Address::decode(octets.try_into().ok()?)?;
        if status {
            return None;
        }
        Some(address)
    }

    ghost some = { Prim.search rules };

    ghost wide = { λ a. refl };
}

impl Entry for Frequency {
    ghost Is = { IsFrequency };

    ghost layout = { frequency_octets };

    ghost OCTETS = { 6 };

    const OCTETS: usize = 6;

    fn read(octets: &[u8]) -> Option<Frequency> {
        let [high, low, station @ ..] = octets else {
            return None;
        };
        Some(Frequency {
            tuning: Tuning::decode(*high, *low),
            station: Address::read(station)?,
        })
    }

    ghost some = { Prim.search rules };

    ghost wide = { λ f. refl };
}

// Twelve bits in two's complement.
fn signed(bits: u16) -> i16
    requires { bits < 4096 }
    ensures { TwelveRead bits result }
{
    (bits << 4).cast_signed() >> 4
}
