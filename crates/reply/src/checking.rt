// Opening a frame and reading an XID to its end.
ghost use Rattle.reply.specs.Checking.{Checks, Owes};

use crate::debt::Debt;
use faults::FrameFault;
use frame::{Control, Frame, Heading, Kind, Unnumbered, open};
use xid::parameters_of;

// A frame without a fault, its count of parameters, and the reply that it leaves owed.
pub struct Checked<'a> {
    pub frame: Frame<'a>,
    pub parameters: usize,
    pub debt: Option<Debt>,
}

// Opens a frame's octets, and reads an XID to its end.
pub fn check(octets: &[u8]) -> Result<Checked<'_>, FrameFault>
    ensures { Checks octets.now result }
{
    let frame = open(octets)?;
    let parameters = parameters_of(frame.heading.control, frame.information)?;
    let debt = owed(frame.heading);
    Ok(Checked {
        frame,
        parameters,
        debt,
    })
}

// An XID command with P at 1 that was not sent to a broadcast type leaves a reply owed.
fn owed(heading: Heading) -> Option<Debt>
    ensures { Owes heading result }
{
    if heading.response {
        return None;
    }
    match (heading.control, heading.destination.kind) {
        (_, Kind::Broadcast) => None,
        (
            Control::Unnumbered {
                function: Unnumbered::Xid,
                poll: true,
            },
            _,
        ) => Some(Debt {
            to: heading.source,
            from: heading.destination,
        }),
        (_, _) => None,
    }
}
