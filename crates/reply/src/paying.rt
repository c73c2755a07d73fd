// Spending a debt: a reply, or a decline.
ghost use Rattle.reply.specs.Paying.{Pays, answer, declined};

use crate::debt::Debt;
use bits::sink::BitSink;
use frame::{Control, Frame, Heading, Unnumbered};
use writer::{WriteError, write_frame};

// A reply that was refused: the debt is still owed.
pub struct Unpaid {
    pub debt: Debt,
    pub error: WriteError,
}

// Sends an XID response with this information to whom the reply is owed.
pub fn reply<S: BitSink>(
    debt: Debt,
    sink: &mut S,
    from_ground: bool,
    information: &[u8],
) -> Result<usize, Unpaid>
    ensures { Pays debt (answer debt from_ground information.now) (S.shown sink.old) result (S.shown sink.new) }
{
    let heading = Heading {
        destination: debt.to,
        from_ground,
        source: debt.from,
        response: true,
        control: Control::Unnumbered {
            function: Unnumbered::Xid,
            poll: true,
        },
    };
    let frame = Frame {
        heading,
        information,
    };
    match write_frame(sink, &frame) {
        Ok(bits) => {
            let Debt { to: _, from: _ } = debt;
            Ok(bits)
        }
        Err(error) => Err(Unpaid { debt, error }),
    }
}

// Sends an XID response that declines, with a cause and a delay.
pub fn decline<S: BitSink>(
    debt: Debt,
    sink: &mut S,
    from_ground: bool,
    cause: u8,
    delay: u16,
) -> Result<usize, Unpaid>
    ensures { Pays debt (answer debt from_ground (declined cause delay)) (S.shown sink.old) result (S.shown sink.new) }
{
    let [high, low] = delay.to_be_bytes();
    let information = [0x82, 0xF0, 0, 8, 0x00, 1, 0x56, 0x06, 3, cause, high, low];
    reply(debt, sink, from_ground, &information)
}
