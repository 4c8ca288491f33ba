ghost use Rattle.locality.specs.declared.test.Test.TheVariants.{Bottom as bottom, Top as top};
ghost use Rattle.cases.specs.WorkedCases.{WorkedCases};

/// The worked cases of docs/EXTRACTION.md, which the contract states: nothing runs.
pub fn worked_cases()
    ensures { WorkedCases bottom top }
{}
