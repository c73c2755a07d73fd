// Writing frames into any bit sink: flag, stuffed octets with check sequence, flag.
#![tactic(auto)]

pub use list::{ListError, Order, write_list};
pub use single::{WriteError, write_frame};

mod list;
mod put;
mod single;
