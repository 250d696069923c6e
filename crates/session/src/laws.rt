// Statements about the steps alone.
ghost use Rattle.session.specs.Figures.{Figures, PremisesAreNeeded};

// Worked figures of keys, limits, reports and intakes.
pub fn figures_hold()
    ensures { Figures }
{}

// The octet laws rest on the law of line keys, and on a tariff time that no profile can switch.
pub fn premises_are_needed()
    ensures { PremisesAreNeeded }
{}
