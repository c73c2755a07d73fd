// Twelve worked values of the definitions that the contracts use.
#![tactic(auto)]

ghost use Rattle.table.specs.Table.{Stuffing, AircraftAddress, BroadcastAddress, GroundAddress, InfoControl, XidControl, TuningValue, LocationValue, CheckSequence, ZeroIsMissing, SharedZero, Traced};

// The table: the contract is the theorem, and the function does nothing.
pub fn table_stands()
    ensures stuffing { Stuffing }
    ensures aircraft { AircraftAddress }
    ensures broadcast { BroadcastAddress }
    ensures ground { GroundAddress }
    ensures info { InfoControl }
    ensures xid { XidControl }
    ensures tuning { TuningValue }
    ensures location { LocationValue }
    ensures sequence { CheckSequence }
    ensures missing { ZeroIsMissing }
    ensures shared { SharedZero }
    ensures traced { Traced }
{}
