// Exchange fields: a reader that moves through a field.
#![tactic(auto)]

ghost use Rattle.xid.specs.Laws.{ReadingIsOne};

pub use information::parameters_of;
pub use parameter::Parameter;
pub use reader::Reader;
pub use reader::moving::count_parameters;

mod cursor;
mod information;
mod parameter;
mod reader;

// The law of reading: the contract is the theorem, and the function does nothing.
pub fn reading_stands()
    ensures { ReadingIsOne }
{}
