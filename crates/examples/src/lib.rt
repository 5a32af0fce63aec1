// Examples that are theorems about the definitions, gathered as one list.
#![tactic(auto)]

ghost use Rattle.examples.specs.Worked.{WorkedNetwork};

// Every example holds; there is nothing to compute.
pub fn examples_hold()
    ensures { WorkedNetwork }
{}
