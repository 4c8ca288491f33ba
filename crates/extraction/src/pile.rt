ghost use Rattle.std.specs.Prelude.{map};
ghost use Rattle.book.specs.Calls.{contents};
ghost use Rattle.extraction.specs.Extractions.{piled};
ghost use Rattle.extraction.specs.Extracts.{HandsUp};
ghost use Rattle.extraction.specs.lemmas.Repaired.{piled_meaning};

use crate::extractor::Extractor;
use crate::rounds::add_stage;
use crate::start::seeded_names;
use crate::tables::Tables;
use book::AtRest;
use locality::LocalityTest;

/// A pile: stages of tests of one type on top of each other, over any extractor.
#[derive(Clone, Copy, Debug)]
pub struct Pile<'a, T, E> {
    /// The tests, the uppermost first.
    pub tests: &'a [T],
    /// The extractor below all stages.
    pub below: E,
}

// Leaves what stages of these tests over an extractor keep, and answers the rounds.
fn climb<T: LocalityTest, E: Extractor>(
    tests: &[T],
    below: &E,
    rest: &AtRest,
    tables: &mut Tables,
) -> u32
    ensures { let b = contents rest.now in
        let meanings =
        map (λ t. record { local = T.LocalityTest.local t; default = T.LocalityTest.default t })
        tests.now in
        let x = piled b meanings (E.Extractor.extraction below.now b) in
        HandsUp x.kept x.rounds tables.new result }
{
    let signature = seeded_names(rest.book());
    let mut counted = below.hand_up(rest, tables);
    for test in tests.iter().rev() {
        counted = add_stage(test, rest, &signature, tables, counted);
    }
    counted
}

/// It comes to a pile of its tests over what the extractor below comes to; with no test, to just that.
impl<T: LocalityTest, E: Extractor> Extractor for Pile<'_, T, E> {
    ghost extraction = { λ p b. piled b
        (map (λ t. record { local = T.LocalityTest.local t; default = T.LocalityTest.default t })
        p.tests.now)
        (E.Extractor.extraction p.below b) };

    ghost means = { λ p b right. piled_meaning b right
        (λ t. record { local = T.LocalityTest.local t; default = T.LocalityTest.default t })
        T.LocalityTest.keeps _ (E.Extractor.means p.below b right) p.tests.now };

    fn extract(&self, rest: &AtRest, tables: &mut Tables) -> u32 {
        match self.tests {
            [] => self.below.extract(rest, tables),
            [uppermost, lower @ ..] => {
                let counted = climb(lower, &self.below, rest, tables);
                let signature = seeded_names(rest.book());
                add_stage(uppermost, rest, &signature, tables, counted)
            }
        }
    }

    fn hand_up(&self, rest: &AtRest, tables: &mut Tables) -> u32 {
        climb(self.tests, &self.below, rest, tables)
    }
}
