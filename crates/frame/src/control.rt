// The control field: which frame it is, with its numbers.
ghost use Rattle.std.specs.Prelude.{◌≡◌, ◌/◌, ◌%◌, if◌then◌else◌};
ghost use Rattle.frame.specs.Controls.{ControlMade, ControlRead, Suited, control_error_number};
ghost use Rattle.frame.specs.Parts.{UnnumberedRead};

use faults::FrameFault;

#[derive(Clone, Copy, PartialEq, Eq, Debug)]
pub enum Control {
    Information {
        send: u8,
        poll: bool,
        receive: u8,
    },
    Supervisory {
        function: Supervisory,
        poll: bool,
        receive: u8,
    },
    Unnumbered {
        function: Unnumbered,
        poll: bool,
    },
}

// Receive ready (RR) and selective reject (SREJ), each the octet that it is without its poll bit and number.
#[derive(Clone, Copy, PartialEq, Eq, Debug)]
pub enum Supervisory {
    Rr = 0x01,
    Srej = 0x0D,
}

// Unnumbered information, disconnected mode, disconnect, acknowledgement, frame reject, exchange identity and test:
// each is the octet that it is without its poll bit.
#[derive(Clone, Copy, PartialEq, Eq, Debug)]
pub enum Unnumbered {
    Ui = 0x03,
    Dm = 0x0F,
    Disc = 0x43,
    Ua = 0x63,
    Frmr = 0x87,
    Xid = 0xAF,
    Test = 0xE3,
}

// Why a control has no octet, each with its number.
#[derive(Clone, Copy, PartialEq, Eq, Debug)]
pub enum ControlError {
    NumberAbove7 = 41,
}

impl ControlError {
    pub fn number(self) -> u8
        ensures { result ≡ control_error_number self }
    {
        self as u8
    }
}

impl Control {
    pub fn octet(self) -> Result<u8, ControlError>
        ensures { ControlMade self result }
    {
        match self {
            Control::Information {
                send,
                poll,
                receive,
            } if send <= 7 && receive <= 7 => Ok(send * 2 + poll_bit(poll) + receive * 32),
            Control::Supervisory {
                function,
                poll,
                receive,
            } if receive <= 7 => Ok(function as u8 + poll_bit(poll) + receive * 32),
            Control::Unnumbered { function, poll } => Ok(function as u8 + poll_bit(poll)),
            _ => Err(ControlError::NumberAbove7),
        }
    }

    // Whether information of so many octets suits.
    pub fn suits(self, information: usize) -> bool
        ensures { Suited self information result }
    {
        match self {
            Control::Supervisory {
                function: Supervisory::Rr,
                ..
            } => information == 0,
            Control::Supervisory {
                function: Supervisory::Srej,
                ..
            } => information > 0,
            Control::Unnumbered {
                function: Unnumbered::Ua | Unnumbered::Dm | Unnumbered::Disc,
                ..
            } => information == 0,
            Control::Unnumbered {
                function: Unnumbered::Frmr,
                ..
            } => information == 3,
            Control::Information { .. } | Control::Unnumbered { .. } => true,
        }
    }
}

// The control that an octet stands for.
impl TryFrom<u8> for Control {
    type Error = FrameFault;

    ghost try_from_gives = { ControlRead };

    fn try_from(octet: u8) -> Result<Control, FrameFault> {
        match octet {
            polled if polled & 0x10 != 0 => by_low_bits(polled, true),
            other => by_low_bits(other, false),
        }
    }
}

// The control of an octet whose poll bit is known.
fn by_low_bits(octet: u8, poll: bool) -> Result<Control, FrameFault>
    requires { (if poll then 1 else 0) ≡ octet / 16 % 2 }
    ensures { ControlRead octet result }
{
    let receive = octet >> 5;
    match octet & 0x0F {
        low if low & 0x01 == 0 => Ok(Control::Information {
            send: low >> 1,
            poll,
            receive,
        }),
        0x01 => Ok(Control::Supervisory {
            function: Supervisory::Rr,
            poll,
            receive,
        }),
        0x0D => Ok(Control::Supervisory {
            function: Supervisory::Srej,
            poll,
            receive,
        }),
        _ => {
            let function = Unnumbered::of_octet(octet & 0xEF)?;
            Ok(Control::Unnumbered { function, poll })
        }
    }
}

impl Unnumbered {
    // The frame of an octet whose poll bit is 0.
    fn of_octet(octet: u8) -> Result<Unnumbered, FrameFault>
        ensures { UnnumberedRead octet result }
    {
        match octet {
            0x03 => Ok(Unnumbered::Ui),
            0x0F => Ok(Unnumbered::Dm),
            0x43 => Ok(Unnumbered::Disc),
            0x63 => Ok(Unnumbered::Ua),
            0x87 => Ok(Unnumbered::Frmr),
            0xAF => Ok(Unnumbered::Xid),
            0xE3 => Ok(Unnumbered::Test),
            _ => Err(FrameFault::UnlistedControl),
        }
    }
}

fn poll_bit(poll: bool) -> u8
    ensures { result ≡ (if poll then 16 else 0) }
{
    u8::from(poll) * 0x10
}
