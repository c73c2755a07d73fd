ghost use Rattle.path.specs.Runs.{RunsAreCut};

// What every run of a receiver comes to: the contract is the theorem, and the function does nothing.
pub fn runs_stand()
    ensures { RunsAreCut }
{}
