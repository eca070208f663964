// The worked examples of the documents, as one proved fact.
#![tactic(auto)]

ghost use Rattle.cases.specs.Examples.{WorkedExamples};

// What the definitions say of the worked examples: bounds, refusals, bytes, and a run that is cut at its bound.
pub fn worked_examples_hold()
    ensures { WorkedExamples }
{}
