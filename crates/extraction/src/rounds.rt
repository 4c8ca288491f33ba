// The rounds of a stage.
ghost use Rattle.std.specs.Prelude.{◌≡◌, ◌<◌, not, ◌&&◌};
ghost use Rattle.terms.specs.Forms.{rule};
ghost use Rattle.terms.specs.Tables.{nodes_of};
ghost use Rattle.locality.specs.Flags.{listed_in};
ghost use Rattle.book.specs.Limits.{most_axioms};
ghost use Rattle.book.specs.Calls.{contents};
ghost use Rattle.extraction.specs.Extracts.{
  handed_in,
  kept_in,
  Inside,
  RoundDone,
  RoundsDone,
  StageDone,
};
ghost use Rattle.extraction.specs.Signatures.{with_signature, ListsOwn};

use crate::mentions::list_axiom;
use crate::tables::{Flags, NONE, Tables};
use book::{AtRest, Book};
use locality::LocalityTest;
use terms::{Axiom, Terms};

// Whether a round marks the axiom with a number: it was handed up, is not marked, and is not local against the list. The
// flags are read by number, since the pass sets some of them.
fn is_fresh<T: LocalityTest>(
    test: &T,
    terms: &Terms,
    axiom: Axiom,
    list: &Flags,
    tables: &Tables,
    number: usize,
) -> bool
    requires { number < most_axioms }
    ensures { let is_local = T.LocalityTest.local test.now (rule (nodes_of terms.now) «axiom»)
        (listed_in list.now) in
        result ≡ (handed_in tables.now number
        && (not (kept_in tables.now number) && not is_local)) }
{
    tables.handed[number] && !tables.kept[number] && !test.is_local(terms, axiom, list)
}

// One round: each unmarked axiom handed up is tested against the list at the round's beginning, and those that are not
// local are marked, their names added to the list. Answers whether the round marked an axiom.
fn round<T: LocalityTest>(test: &T, book: &Book, tables: &mut Tables) -> bool
    requires { Inside (contents book.now) (handed_in tables.old) }
    ensures { RoundDone (contents book.now) (T.LocalityTest.local test.now)
        tables.old tables.new result }
{
    let list = tables.closed;
    let mut marks = false;
    for (number, filed) in book.axioms().iter().enumerate() {
        if is_fresh(test, book.terms(), filed.axiom, &list, tables, number) {
            tables.kept[number] = true;
            list_axiom(&mut tables.closed, book.terms(), filed.axiom);
            marks = true;
        }
    }
    marks
}

// The rounds of a stage for a signature, on tables that hold what was handed up: the first that marks no axiom is the last,
// and counts.
fn rounds<T: LocalityTest>(test: &T, book: &Book, signature: &Flags, tables: &mut Tables) -> u32
    requires handed { Inside (contents book.now) (handed_in tables.old) }
    requires listed { ListsOwn (contents book.now) (listed_in signature.now) }
    ensures { let b = with_signature (contents book.now) (listed_in signature.now) in
        RoundsDone b (T.LocalityTest.local test.now) tables.old tables.new result }
{
    tables.kept = NONE;
    tables.closed = *signature;
    let mut marking = 0;
    while round(test, book, tables) {
        marking += 1;
    }
    marking + 1
}

// A stage on top: what the tables keep is handed up to it. Answers the rounds, those below included.
pub(crate) fn add_stage<T: LocalityTest>(
    test: &T,
    rest: &AtRest,
    signature: &Flags,
    tables: &mut Tables,
    below: u32,
) -> u32
    requires kept { Inside (contents rest.now) (kept_in tables.old) }
    requires listed { ListsOwn (contents rest.now) (listed_in signature.now) }
    ensures { let b = with_signature (contents rest.now) (listed_in signature.now) in
        StageDone b (T.LocalityTest.local test.now) tables.old below tables.new result }
{
    tables.handed = tables.kept;
    below.saturating_add(rounds(test, rest.book(), signature, tables))
}
