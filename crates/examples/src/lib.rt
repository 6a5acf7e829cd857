// Worked examples, shown of the definitions that the contracts cite.
#![tactic(auto)]

ghost use Rattle.examples.specs.Worked.{Worked};

// The examples stand: the checker computes each from the definitions.
pub fn examples_stand()
    ensures { Worked }
{}
