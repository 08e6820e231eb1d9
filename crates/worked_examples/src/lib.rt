// The worked examples of the definitions.
#![tactic(auto)]

ghost use Rattle.worked_examples.specs.Table.{Examples};

// Carries the table of the worked examples.
pub fn examples_hold() -> bool
    ensures { Examples }
{
    true
}
