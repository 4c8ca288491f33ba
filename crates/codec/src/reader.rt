ghost use Rattle.std.specs.Prelude.{◌≡◌};
ghost use Rattle.terms.specs.Reading.{read_byte, read_number, read_code, read_direction, read_count, read_name, read_role};

use terms::{Code, Count, Direction, ItemFault, RoleItem};
use vocabulary::{Kind, NameId, Vocabulary};

// Goes through the items of a body from left to right; `at` is the place of the next byte, which faults are told with.
#[derive(Drop)]
pub(crate) struct BodyReader<'a> {
    pub(crate) body: &'a [u8],
    pub(crate) names: &'a Vocabulary,
    pub(crate) at: usize,
}

impl BodyReader<'_> {
    ghost use Rattle.codec.specs.Numbers.{read_any_name};
    ghost use Rattle.codec.specs.Steps.{Does, bytes, entities_of};

    // One byte of the item that begins at `start`.
    fn byte(&mut self, start: usize) -> Result<u8, ItemFault>
        ensures { Does (λ x. x) self.old result self.new
            (read_byte (bytes self.old) start self.old.at) }
    {
        let byte = *self.body.get(self.at).ok_or(ItemFault::CutShort(start))?;
        self.at += 1;
        Ok(byte)
    }

    // Two bytes, the low one first.
    fn number(&mut self) -> Result<u16, ItemFault>
        ensures { Does (λ x. x) self.old result self.new
            (read_number (bytes self.old) self.old.at) }
    {
        let start = self.at;
        let low = self.byte(start)?;
        let high = self.byte(start)?;
        Ok(u16::from_le_bytes([low, high]))
    }

    // The number of a name of the kind wanted.
    pub(crate) fn name(&mut self, kind: Kind) -> Result<NameId, ItemFault>
        ensures { Does (λ x. x) self.old result self.new
            (read_name (bytes self.old) (entities_of self.old) kind self.old.at) }
    {
        let start = self.at;
        let id = NameId(self.number()?);
        if self.names.kind_of(id) == Some(kind) {
            Ok(id)
        } else {
            Err(ItemFault::WrongName(start))
        }
    }

    // The number of a name of any kind.
    pub(crate) fn any_name(&mut self) -> Result<NameId, ItemFault>
        ensures { Does (λ x. x) self.old result self.new
            (read_any_name (bytes self.old) (entities_of self.old) self.old.at) }
    {
        let start = self.at;
        let id = NameId(self.number()?);
        if usize::from(id.0) < self.names.count() {
            Ok(id)
        } else {
            Err(ItemFault::WrongName(start))
        }
    }

    // The code that a term begins with.
    pub(crate) fn code(&mut self) -> Result<Code, ItemFault>
        ensures { Does (λ x. x) self.old result self.new (read_code (bytes self.old) self.old.at) }
    {
        let start = self.at;
        let byte = self.byte(start)?;
        Code::try_from(byte).map_err(|_| ItemFault::UnknownCode(start))
    }

    fn direction(&mut self) -> Result<Direction, ItemFault>
        ensures { Does (λ x. x) self.old result self.new
            (read_direction (bytes self.old) self.old.at) }
    {
        let start = self.at;
        let byte = self.byte(start)?;
        Direction::try_from(byte).map_err(|_| ItemFault::UnknownDirection(start))
    }

    // How many partners "at least" asks for.
    pub(crate) fn count(&mut self) -> Result<Count, ItemFault>
        ensures { Does (λ c. c.value) self.old result self.new
            (read_count (bytes self.old) self.old.at) }
    {
        let start = self.at;
        let value = self.number()?;
        Count::new(value).ok_or(ItemFault::ZeroCount(start))
    }

    // A direction and a role.
    pub(crate) fn role_item(&mut self) -> Result<RoleItem, ItemFault>
        ensures { Does (λ x. x) self.old result self.new
            (read_role (bytes self.old) (entities_of self.old) self.old.at) }
    {
        let direction = self.direction()?;
        let role = self.name(Kind::Role)?;
        Ok(match direction {
            Direction::Forward => RoleItem::Forward(role),
            Direction::Inverse => RoleItem::Inverse(role),
        })
    }
}
