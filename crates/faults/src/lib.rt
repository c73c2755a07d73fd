// The faults of what is read: a parameter fault stands whole inside an exchange fault, and that inside a frame fault.
#![tactic(auto)]

ghost use Rattle.std.specs.Prelude.{◌≡◌};
ghost use Rattle.faults.specs.Faults.{parameter_number, parameter_place, exchange_number, exchange_place, frame_number, frame_place, ParameterInside, ExchangeInside};

// Why a frame's octets are not taken; a place is an octet's, counted from 0.
#[derive(Clone, Copy, PartialEq, Eq, Debug)]
pub enum FrameFault {
    Length { octets: usize },
    DestinationMark { place: usize },
    SourceMark { place: usize },
    UnlistedType { place: usize },
    UnlistedControl,
    UnsuitedInformation,
    Exchange { fault: ExchangeFault },
}

// Why an exchange field is not taken; a place is the first octet of the group or parameter, counted in the information.
#[derive(Clone, Copy, PartialEq, Eq, Debug)]
pub enum ExchangeFault {
    NoLeading,
    ShortGroup { place: usize },
    OtherGroup { place: usize },
    GroupOrder { place: usize },
    GroupBeyond { place: usize },
    ParameterBeyond { place: usize },
    Parameter { fault: ParameterFault },
}

// Why a parameter's value is not taken.
#[derive(Clone, Copy, PartialEq, Eq, Debug)]
pub enum ParameterFault {
    WrongLength { place: usize },
    WrongValue { place: usize },
}

impl ParameterFault {
    pub fn number(self) -> u8
        ensures { result ≡ parameter_number self }
    {
        match self {
            ParameterFault::WrongLength { .. } => 37,
            ParameterFault::WrongValue { .. } => 38,
        }
    }

    pub fn place(self) -> usize
        ensures { result ≡ parameter_place self }
    {
        match self {
            ParameterFault::WrongLength { place } | ParameterFault::WrongValue { place } => place,
        }
    }
}

impl ExchangeFault {
    pub fn number(self) -> u8
        ensures { result ≡ exchange_number self }
    {
        match self {
            ExchangeFault::NoLeading => 31,
            ExchangeFault::ShortGroup { .. } => 32,
            ExchangeFault::OtherGroup { .. } => 33,
            ExchangeFault::GroupOrder { .. } => 34,
            ExchangeFault::GroupBeyond { .. } => 35,
            ExchangeFault::ParameterBeyond { .. } => 36,
            ExchangeFault::Parameter { fault } => fault.number(),
        }
    }

    pub fn place(self) -> usize
        ensures { result ≡ exchange_place self }
    {
        match self {
            ExchangeFault::NoLeading => 0,
            ExchangeFault::ShortGroup { place }
            | ExchangeFault::OtherGroup { place }
            | ExchangeFault::GroupOrder { place }
            | ExchangeFault::GroupBeyond { place }
            | ExchangeFault::ParameterBeyond { place } => place,
            ExchangeFault::Parameter { fault } => fault.place(),
        }
    }
}

impl FrameFault {
    pub fn number(self) -> u8
        ensures { result ≡ frame_number self }
    {
        match self {
            FrameFault::Length { .. } => 21,
            FrameFault::DestinationMark { .. } => 22,
            FrameFault::SourceMark { .. } => 23,
            FrameFault::UnlistedType { .. } => 24,
            FrameFault::UnlistedControl => 25,
            FrameFault::UnsuitedInformation => 26,
            FrameFault::Exchange { fault } => fault.number(),
        }
    }

    // The octet count where there are too few or too many.
    pub fn place(self) -> usize
        ensures { result ≡ frame_place self }
    {
        match self {
            FrameFault::Length { octets } => octets,
            FrameFault::DestinationMark { place }
            | FrameFault::SourceMark { place }
            | FrameFault::UnlistedType { place } => place,
            FrameFault::UnlistedControl => 8,
            FrameFault::UnsuitedInformation => 9,
            FrameFault::Exchange { fault } => fault.place(),
        }
    }
}

impl From<ParameterFault> for ExchangeFault {
    ghost from_gives = { ParameterInside };

    fn from(value: ParameterFault) -> ExchangeFault {
        ExchangeFault::Parameter { fault: value }
    }
}

impl From<ExchangeFault> for FrameFault {
    ghost from_gives = { ExchangeInside };

    fn from(value: ExchangeFault) -> FrameFault {
        FrameFault::Exchange { fault: value }
    }
}
