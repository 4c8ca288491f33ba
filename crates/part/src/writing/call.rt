ghost use Rattle.refusals.specs.Choice.{Judged, refusal_of};
ghost use Rattle.refusals.specs.Turns.{Gives};
ghost use Rattle.book.specs.Calls.{contents};
ghost use Rattle.extraction.specs.Extractors.{Meaning};
ghost use Rattle.extraction.specs.Marking.{mark_refusal};
ghost use Rattle.part.specs.Fitting.{WritingFits};
ghost use Rattle.part.specs.Writing.{ReadBack, WrittenAgain, lent_for_part, writing};

use crate::writing::sections::Part;
use book::AtRest;
use extraction::{Extractor, MarkFault, Tables, is_too_short, is_unseeded};

/// Marks a book at rest through an extractor, and writes the part that the marked axioms make: 1 or 0 for each axiom in one
/// buffer, 1 or 0 for each name, whether it is in the closed signature, in another, and the part in a third
/// (specs/Writing.antt). Answers how many bytes the part has. An empty signature is refused, and so is a buffer that is too
/// short (specs/Fitting.antt); a refusal changes no buffer. The part is loaded back as specs/Writing.antt says.
#[tactic(auto, using(crate::proofs::Delivered::part_back))]
pub fn write<E: Extractor>(
    rest: &AtRest,
    pile: &E,
    axioms: &mut [u8],
    names: &mut [u8],
    part: &mut [u8],
) -> Result<usize, MarkFault>
    ensures gives { let b = contents rest.now in
        let kept = (E.Extractor.extraction pile.now b).kept in
        Gives (lent_for_part axioms.new names.new part.new) result
        (writing b kept (lent_for_part axioms.old names.old part.old)) }
    ensures law { let b = contents rest.now in
        let kept = (E.Extractor.extraction pile.now b).kept in
        let fits = WritingFits b kept (lent_for_part axioms.old names.old part.old) in
        Judged fits (refusal_of mark_refusal result) }
    ensures means { let b = contents rest.now in
        Meaning b (E.Extractor.extraction pile.now b) }
    ensures back { let b = contents rest.now in
        ReadBack b (E.Extractor.extraction pile.now b).kept }
    ensures again { let b = contents rest.now in
        WrittenAgain b (E.Extractor.extraction pile.now b).kept }
{
    let book = rest.book();
    if is_unseeded(book) {
        return Err(MarkFault::EmptySignature);
    }
    let mut tables = Tables::new();
    pile.extract(rest, &mut tables);
    let marked = Part {
        book,
        kept: tables.kept(),
    };
    let len = marked.len();
    if is_too_short(book, axioms, names) || part.len() < len {
        return Err(MarkFault::ShortBuffer);
    }
    tables.write(rest, axioms, names);
    marked.write(part);
    Ok(len)
}
