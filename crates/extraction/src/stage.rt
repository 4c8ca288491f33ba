ghost use Rattle.extraction.specs.Extractions.{staged};
ghost use Rattle.extraction.specs.lemmas.Repaired.{staged_meaning};

use crate::extractor::Extractor;
use crate::rounds::add_stage;
use crate::start::seeded_names;
use crate::tables::Tables;
use book::AtRest;
use locality::LocalityTest;

/// A stage: a locality test over any extractor. The axioms that the extractor below keeps are handed up to it; it marks
/// some of them in rounds and keeps what it marked, so it is again an extractor.
#[derive(Clone, Copy, Debug)]
pub struct Stage<T, E> {
    /// The test.
    pub test: T,
    /// The extractor below.
    pub below: E,
}

/// It comes to a stage of its test over what the extractor below comes to.
impl<T: LocalityTest, E: Extractor> Extractor for Stage<T, E> {
    ghost extraction = { λ s b. staged b
        (T.LocalityTest.local s.test) (T.LocalityTest.default s.test)
        (E.Extractor.extraction s.below b) };

    ghost means = { λ s b right. staged_meaning b right _ _ (T.LocalityTest.keeps s.test) _
        (E.Extractor.means s.below b right) };

    fn extract(&self, rest: &AtRest, tables: &mut Tables) -> u32 {
        let below = self.below.hand_up(rest, tables);
        let signature = seeded_names(rest.book());
        add_stage(&self.test, rest, &signature, tables, below)
    }
}
