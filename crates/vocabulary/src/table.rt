ghost use Rattle.std.specs.Prelude.{◌≡◌, ◌≤◌, true, [], map, length, IfOk, is_ok, nat_lt};
ghost use Rattle.std.specs.List.{list_any};
ghost use Rattle.std.specs.Option.{option_map};
ghost use Rattle.vocabulary.specs.Limits.{most_names};
ghost use Rattle.vocabulary.specs.Entities.{entity, entity_at, all_distinct, is_taken, kind_at, is_named, reseed};

use crate::fault::{NameFault, NoSuchName};
use crate::kind::Kind;
use crate::label::Label;
use crate::name::{Name, NameId};
use bounded::Bounded;
use std::alloc::{AllocError, Global};

/// How many names a book has room for: `most_names` of specs/Limits.
pub const MOST_NAMES: usize = 1024;

/// The names of a book by number, from 0 in the order made: at most 1,024, no two of them with the same kind and label.
/// In clauses `entities` gives the list of them. It has no way to take a name out.
#[derive(Drop)]
pub struct Vocabulary {
    names: Bounded<Name, MOST_NAMES>,
    // as the table's own invariant says; lemmas about names need it of the value
    ghost few: { length names ≤ most_names },
    ghost apart: { all_distinct (map entity names) ≡ true },
}

// Whether one of the names has this kind and this label.
fn any_named(names: &[Name], kind: Kind, label: &[u8]) -> bool
    ensures { result ≡ list_any (λ n. is_named kind label.now (entity n)) names.now }
{
    names.iter().any(|name| name.is(kind, label))
}

impl Vocabulary {
    ghost use Rattle.refusals.specs.Choice.{Judged, refusal_of};
    ghost use Rattle.refusals.specs.Turns.{Gives};
    ghost use Rattle.vocabulary.specs.Fitting.{NamingFits};
    ghost use Rattle.vocabulary.specs.Refusals.{name_refusal};
    ghost use Rattle.vocabulary.specs.Naming.{entities, naming};

    /// An empty table, with room for every name that it will ever hold. It is refused only where the memory cannot be
    /// claimed.
    pub fn new(heap: Global) -> Result<Vocabulary, AllocError>
        ensures { IfOk result (λ v. entities v ≡ []) }
    {
        Ok(Vocabulary {
            names: Bounded::new(heap)?,
        })
    }

    /// How many names there are, at most 1,024.
    pub fn count(&self) -> usize
        ensures value { result ≡ length (entities self.now) }
        ensures bound { result ≤ most_names }
    {
        self.names.len()
    }

    /// The names in the order of their numbers, at most 1,024.
    pub fn as_slice(&self) -> &[Name]
        ensures value { map entity result.now ≡ entities self.now }
        ensures bound { length result.now ≤ most_names }
    {
        self.names.as_slice()
    }

    /// The name with a number, or `None` where no name has it.
    pub fn get(&self, id: NameId) -> Option<&Name>
        ensures { option_map (λ n. entity n.now) result ≡ entity_at (entities self.now) id.0 }
    {
        self.names.get(usize::from(id.0))
    }

    /// The kind of the name with a number, or `None` where no name has it.
    pub fn kind_of(&self, id: NameId) -> Option<Kind>
        ensures { result ≡ kind_at (entities self.now) id.0 }
    {
        self.get(id).map(|name| name.kind)
    }

    // Whether a name has this kind and this label: all names are gone through.
    fn holds(&self, kind: Kind, label: &[u8]) -> bool
        ensures { result ≡ is_taken kind label.now (entities self.now) }
    {
        any_named(self.names.as_slice(), kind, label)
    }

    /// Makes a name of a kind byte and a label, which is not seeded, and answers its number. What the names then are is
    /// told in `specs/Naming`; when it is refused, and by which of the refusals that fit, in `specs/Fitting`. A refused
    /// naming changes nothing.
    pub fn name(&mut self, kind: u8, label: &[u8]) -> Result<NameId, NameFault>
        ensures turn { Gives (entities self.new) result
            (naming (entities self.old) kind label.now) }
        ensures law { Judged (NamingFits (entities self.old) kind label.now)
            (refusal_of name_refusal result) }
    {
        let kind = Kind::try_from(kind)?;
        let checked = Label::try_from(label)?;
        if self.holds(kind, label) {
            return Err(NameFault::LabelTaken);
        }
        let name = Name {
            kind,
            label: checked,
            seeded: false,
        };
        let number = self.names.push(name).ok_or(NameFault::TableFull)?;
        Ok(NameId(number as u16))
    }

    /// Puts the name with a number into the signature, or takes it out, as `on` says; it may be there, or not, already.
    /// Where no name has the number it is refused, and nothing changes.
    pub fn set_seeded(&mut self, id: NameId, on: bool) -> Result<(), NoSuchName>
        ensures after { entities self.new ≡ reseed (entities self.old) id.0 on }
        ensures value { is_ok result ≡ nat_lt id.0 (length (entities self.old)) }
    {
        let name = self.names.get_mut(usize::from(id.0)).ok_or(NoSuchName)?;
        name.seeded = on;
        Ok(())
    }
}
