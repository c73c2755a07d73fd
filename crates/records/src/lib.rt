// Parameter values with a layout, as typed records.
#![tactic(auto)]

ghost use Rattle.records.specs.Laws.{TuningIsOne, LocationIsOne, StationsAreListed, FrequenciesAreListed};

pub use entries::{Entries, Entry};
pub use record::{Record, read_value};
pub use values::{Frequencies, Frequency, Location, Stations, Tuning};

mod entries;
mod record;
mod values;

// The laws of the layouts: the contract is the theorem, and the function does nothing.
pub fn records_stand()
    ensures tuning { TuningIsOne }
    ensures location { LocationIsOne }
    ensures stations { StationsAreListed }
    ensures frequencies { FrequenciesAreListed }
{}
