// Both ends: what is written is what is heard.
ghost use Rattle.path.specs.Ends.{WrittenIsHeard, WrittenIsRead, WrittenApart};

// The promise over all runs of a writer and of a receiver: the contract is the theorem, and the function does nothing.
pub fn ends_stand()
    ensures heard { WrittenIsHeard }
    ensures read { WrittenIsRead }
    ensures apart { WrittenApart }
{}
