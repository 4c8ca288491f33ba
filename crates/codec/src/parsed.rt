ghost use Rattle.std.specs.Prelude.{◌≡◌, IfSome};
ghost use Rattle.refusals.specs.declared.refusal.Refusal.{Refusal};
ghost use Rattle.refusals.specs.Choice.{Judged, refusal_of};
ghost use Rattle.refusals.specs.Turns.{Gives};
ghost use Rattle.vocabulary.specs.Naming.{entities};
ghost use Rattle.terms.specs.Fitting.{ItemFits};
ghost use Rattle.terms.specs.Refusals.{item_refusal};
ghost use Rattle.terms.specs.Tables.{nodes_of};
ghost use Rattle.codec.specs.Numbers.{name_outcome, read_any_name};
ghost use Rattle.codec.specs.Parsing.{Parses, axiom_turn};

use crate::body::Body;
use crate::reader::BodyReader;
use crate::term_reader::TermReader;
use terms::{Axiom, AxiomKind, ItemFault, MOST_NODES, Terms};
use vocabulary::{NameId, Vocabulary};

/// An axiom that was read.
#[derive(Clone, Copy, Debug)]
pub struct Parsed {
    /// The axiom; its terms lie in the table that it was read into.
    pub axiom: Axiom,
    /// The place in the body behind its last item.
    pub end: usize,
}

/// The number of a name that was read.
#[derive(Clone, Copy, Debug)]
pub struct ParsedName {
    /// The number; a name has it.
    pub name: NameId,
    /// The place in the body behind it.
    pub end: usize,
}

/// Reads an axiom of a kind; its nodes are added to the table, and after a fault the table is as it was. None where the
/// table has no room for as many nodes as the body has bytes, as the table of a book always has. The format stands in
/// `specs/Reading` of terms, which refusal decides in `specs/Fitting` there, and the nodes in `specs/Laying`.
pub fn read_axiom<'a>(
    terms: &mut Terms,
    names: &'a Vocabulary,
    kind: AxiomKind,
    body: &'a Body<'_>,
) -> Option<Result<Parsed, ItemFault>>
    ensures turn { let turn = axiom_turn (nodes_of terms.old) (entities names.now) kind body.now in
        Gives (nodes_of terms.new) result turn }
    // a body that is read is refused exactly if a refusal fits one of its items, and then by the one that decides
    ensures judged { let fits : Refusal → Type 0 = ItemFits (entities names.now) body.now kind in
        IfSome result (λ r. Judged fits (refusal_of item_refusal r)) }
    // what an axiom that was read is, in the table and in every later one
    ensures outcome { Parses (nodes_of terms.old) (entities names.now) kind body.now result
        (nodes_of terms.new) }
{
    let body = body.as_bytes();
    let before = terms.count();
    if before.saturating_add(body.len()) > MOST_NODES {
        return None;
    }
    let items = BodyReader { body, names, at: 0 };
    let mut reader = TermReader { items, terms };
    match reader.axiom(kind) {
        Ok(axiom) => Some(Ok(Parsed {
            axiom,
            end: reader.items.at,
        })),
        Err(fault) => {
            terms.truncate(before);
            Some(Err(fault))
        }
    }
}

/// Reads the number of a name of any kind, which a body begins with, as `specs/Numbers` says. It is refused at place 0
/// where fewer than two bytes are there, and where no name has the number.
pub fn read_name_number<'a>(
    names: &'a Vocabulary,
    body: &'a Body<'_>,
) -> Result<ParsedName, ItemFault>
    ensures { name_outcome result ≡ read_any_name body.now (entities names.now) 0 }
{
    let mut items = BodyReader {
        body: body.as_bytes(),
        names,
        at: 0,
    };
    let name = items.any_name()?;
    Ok(ParsedName {
        name,
        end: items.at,
    })
}
