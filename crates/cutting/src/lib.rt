// Cutting: the definitions of flags, breaks, stretches, removal and verdicts, and their laws.
#![tactic(auto)]

ghost use Rattle.std.specs.Prelude.{◌≡◌};
ghost use Rattle.cutting.specs.Faults.{fault_number};
ghost use Rattle.cutting.specs.Laws.{DueIsOne, AllDueIsOne, AllDueIsAll, CuttingIsCausal, CuttingIsLocal};
ghost use Rattle.cutting.specs.StuffingLaws.{StuffingIsUndone, StuffingPartsOnes, StuffingFits, PutIsCut, PutApart};

// Why a stretch that a flag closed is no frame.
#[derive(Clone, Copy, PartialEq, Eq, Debug)]
pub enum Fault {
    MissingZero = 11,
    TooLong = 12,
    NotOctets = 13,
    TooShort = 14,
    WrongSequence = 15,
}

impl Fault {
    pub fn number(self) -> u8
        ensures { result ≡ fault_number self }
    {
        self as u8
    }
}

// The laws of cutting: the contract is the theorem, and the function does nothing.
pub fn cutting_stands()
    ensures one { DueIsOne }
    ensures all_one { AllDueIsOne }
    ensures all { AllDueIsAll }
    ensures causal { CuttingIsCausal }
    ensures local { CuttingIsLocal }
{}

// The laws of stuffing, and that what is put is cut into what was put.
pub fn stuffing_stands()
    ensures undone { StuffingIsUndone }
    ensures parted { StuffingPartsOnes }
    ensures fits { StuffingFits }
    ensures cut { PutIsCut }
    ensures apart { PutApart }
{}
