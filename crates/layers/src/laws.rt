ghost use Rattle.layers.specs.Laws.{SequenceIsRuled, ScramblingIsUndone, SourceGivesWhatSinkHolds, PutIsUndone};

// The laws of the layers: the contract is the theorem, and the function does nothing.
pub fn layers_stand()
    ensures ruled { SequenceIsRuled }
    ensures undone { ScramblingIsUndone }
    ensures given_back { SourceGivesWhatSinkHolds }
    ensures put_undone { PutIsUndone }
{}
