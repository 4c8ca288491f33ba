ghost use Rattle.locality.specs.declared.test.Test.TheVariants.{Bottom as bottom, Top as top};
ghost use Rattle.locality.specs.SingleTerms.{SingleTerms};
ghost use Rattle.locality.specs.SmallWorlds.{SmallWorlds};

/// What the two tests say of single terms, which the contract states: nothing runs.
pub fn single_terms()
    ensures { SingleTerms bottom top }
{}

/// What terms and axioms mean in small worlds, which the contract states: nothing runs.
pub fn small_worlds()
    ensures { SmallWorlds }
{}
