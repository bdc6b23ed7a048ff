// The law of checked facts, the clause of a function that does nothing.

ghost use Rattle.vx_narrow.specs.Checking.{FactsHold};

/// Checked facts hold on every run: wherever a block is entered, the values satisfy what is claimed at its start.
pub fn checked_facts_hold()
    ensures { FactsHold }
{}
