// The parameters of a frame's information.
ghost use Rattle.xid.specs.Information.{ReadAs};

use crate::reader::moving::count_parameters;
use faults::ExchangeFault;
use frame::{Control, Unnumbered};

// The count of an XID's parameters; 0 of any other frame.
pub fn parameters_of(control: Control, information: &[u8]) -> Result<usize, ExchangeFault>
    ensures { ReadAs control information.now result }
{
    match control {
        Control::Unnumbered {
            function: Unnumbered::Xid,
            ..
        } => count_parameters(information),
        _ => Ok(0),
    }
}
