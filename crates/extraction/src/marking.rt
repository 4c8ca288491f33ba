// Marking a book at rest.
ghost use Rattle.std.specs.List.{list_any};
ghost use Rattle.std.specs.Prelude.{◌≡◌, Some, length, map};
ghost use Rattle.refusals.specs.Choice.{Judged, refusal_of};
ghost use Rattle.refusals.specs.Refusals.{reason_text};
ghost use Rattle.refusals.specs.Turns.{Gives};
ghost use Rattle.book.specs.Calls.{contents};
ghost use Rattle.locality.specs.Meaning.{count_below};
ghost use Rattle.extraction.specs.Extractions.{staged, piled};
ghost use Rattle.extraction.specs.Extractors.{Meaning};
ghost use Rattle.extraction.specs.Fitting.{MarkingFits};
ghost use Rattle.locality.specs.Flags.{set_of};
ghost use Rattle.extraction.specs.Marking.{lent, is_unseeded, is_too_short, mark_refusal, marking};
ghost use Rattle.extraction.specs.Sets.{list_size, signature};
ghost use Rattle.extraction.specs.Tallying.{ListsSeeded, Tallies};

use crate::extractor::Extractor;
use crate::pile::Pile;
use crate::stage::Stage;
use crate::tables::Tables;
use book::{AtRest, Book};
use locality::LocalityTest;
use refusals::{Reason, Refusal};
use std::error::Error;
use std::fmt;
use vocabulary::Name;

/// What marking answers.
#[derive(Clone, Copy, Debug, PartialEq, Eq, Hash)]
pub struct Marking {
    /// How many axioms are marked.
    pub marked: usize,
    /// How many names the closed signature has.
    pub closed: usize,
    /// How many of them are drawn in, that is, outside the signature.
    pub drawn_in: usize,
    /// The rounds.
    pub rounds: u32,
}

/// Why marking, or writing what was marked, is refused (docs/REFUSALS.md).
#[derive(Clone, Copy, Debug, PartialEq, Eq, Hash)]
pub enum MarkFault {
    /// No name is seeded.
    EmptySignature,
    /// A buffer has fewer bytes than what is to be written into it.
    ShortBuffer,
}

impl MarkFault {
    /// The refusal: its reason, and place 0.
    pub fn refusal(self) -> Refusal
        ensures { result ≡ mark_refusal self }
    {
        let reason = match self {
            MarkFault::EmptySignature => Reason::EmptySignature,
            MarkFault::ShortBuffer => Reason::ShortBuffer,
        };
        Refusal { reason, place: 0 }
    }
}

/// The reason in words.
impl fmt::Display for MarkFault {
    ghost output = { λ f. Some (reason_text (mark_refusal f).reason) };

    fn fmt<W: fmt::Write>(&self, f: &mut fmt::Formatter<W>) -> fmt::Result {
        let reason = self.refusal().reason;
        write!(f, "{reason}")
    }
}

impl Error for MarkFault {}

// Whether one of these names is seeded.
fn any_seeded(names: &[Name]) -> bool
    ensures { result ≡ list_any (λ n. n.seeded) names.now }
{
    names.iter().any(|name| name.seeded)
}

/// Whether no name of the book is seeded: then there is nothing to mark for.
pub fn is_unseeded(book: &Book) -> bool
    ensures { result ≡ is_unseeded (contents book.now) }
{
    !any_seeded(book.names().as_slice())
}

/// Whether a buffer has fewer bytes than the book has axioms, or the other fewer than it has names.
pub fn is_too_short(book: &Book, axioms: &[u8], names: &[u8]) -> bool
    ensures { result ≡ is_too_short (contents book.now) (lent axioms.now names.now) }
{
    axioms.len() < book.axioms().len() || names.len() < book.names().count()
}

// How many names of the book are seeded.
fn count_seeded(book: &Book) -> usize
    ensures { let b = contents book.now in
        result ≡ list_size b (signature b) }
{
    let names = book.names().as_slice();
    names.iter().filter(|name| name.seeded).count()
}

// How many flags are set.
fn count_flags(flags: &[bool]) -> usize
    ensures { result ≡ count_below (length flags.now) (set_of flags.now) }
{
    flags.iter().filter(|flag| **flag).count()
}

// Counts what tables hold. Every seeded name is listed, so the others are those drawn in.
fn tally(book: &Book, tables: &Tables, rounds: u32) -> Marking
    requires { ListsSeeded (contents book.now) tables.now }
    ensures { Tallies (contents book.now) tables.now rounds result }
{
    let closed = count_flags(&tables.closed[..book.names().count()]);
    Marking {
        marked: count_flags(&tables.kept[..book.axioms().len()]),
        closed,
        drawn_in: closed - count_seeded(book),
        rounds,
    }
}

/// Marks a book at rest through an extractor: 1 or 0 for each axiom in one buffer, 1 or 0 for each name, whether it is in
/// the closed signature, in another (specs/Marking.antt). An empty signature is refused, and so is a buffer that is too
/// short (specs/Fitting.antt); a refusal changes no buffer.
pub fn mark<E: Extractor>(
    rest: &AtRest,
    pile: &E,
    axioms: &mut [u8],
    names: &mut [u8],
) -> Result<Marking, MarkFault>
    ensures gives { let b = contents rest.now in
        let x = E.Extractor.extraction pile.now b in
        Gives (lent axioms.new names.new) result (marking b x (lent axioms.old names.old)) }
    ensures law { let fits = MarkingFits (contents rest.now) (lent axioms.old names.old) in
        Judged fits (refusal_of mark_refusal result) }
    ensures means { let b = contents rest.now in
        Meaning b (E.Extractor.extraction pile.now b) }
{
    let book = rest.book();
    if is_unseeded(book) {
        return Err(MarkFault::EmptySignature);
    }
    if is_too_short(book, axioms, names) {
        return Err(MarkFault::ShortBuffer);
    }
    let mut tables = Tables::new();
    let rounds = pile.extract(rest, &mut tables);
    tables.write(rest, axioms, names);
    Ok(tally(book, &tables, rounds))
}

/// Marks a book at rest through a stage: what it comes to is told here outright, by its test and by what the extractor
/// below comes to.
pub fn mark_stage<T: LocalityTest, E: Extractor>(
    rest: &AtRest,
    stage: &Stage<T, E>,
    axioms: &mut [u8],
    names: &mut [u8],
) -> Result<Marking, MarkFault>
    ensures gives { let b = contents rest.now in
        let t = stage.now.test in
        let below = E.Extractor.extraction stage.now.below b in
        let x = staged b (T.LocalityTest.local t) (T.LocalityTest.default t) below in
        Gives (lent axioms.new names.new) result (marking b x (lent axioms.old names.old)) }
    ensures law { let fits = MarkingFits (contents rest.now) (lent axioms.old names.old) in
        Judged fits (refusal_of mark_refusal result) }
    ensures means { let b = contents rest.now in
        let t = stage.now.test in
        let below = E.Extractor.extraction stage.now.below b in
        Meaning b (staged b (T.LocalityTest.local t) (T.LocalityTest.default t) below) }
{
    mark(rest, stage, axioms, names)
}

/// Marks a book at rest through a pile: what it comes to is told here outright, by its tests and by what the extractor
/// below comes to.
pub fn mark_pile<T: LocalityTest, E: Extractor>(
    rest: &AtRest,
    pile: &Pile<T, E>,
    axioms: &mut [u8],
    names: &mut [u8],
) -> Result<Marking, MarkFault>
    ensures gives { let b = contents rest.now in
        let tests =
        map (λ t. record { local = T.LocalityTest.local t; default = T.LocalityTest.default t })
        pile.now.tests.now in
        let x = piled b tests (E.Extractor.extraction pile.now.below b) in
        Gives (lent axioms.new names.new) result (marking b x (lent axioms.old names.old)) }
    ensures law { let fits = MarkingFits (contents rest.now) (lent axioms.old names.old) in
        Judged fits (refusal_of mark_refusal result) }
    ensures means { let b = contents rest.now in
        let tests =
        map (λ t. record { local = T.LocalityTest.local t; default = T.LocalityTest.default t })
        pile.now.tests.now in
        Meaning b (piled b tests (E.Extractor.extraction pile.now.below b)) }
{
    mark(rest, pile, axioms, names)
}
