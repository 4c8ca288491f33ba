ghost use Rattle.std.specs.Option.{ok_or};
ghost use Rattle.std.specs.Prelude.{◌≡◌};
ghost use Rattle.terms.specs.Codes.{code_byte, code_of, direction_byte, direction_of};

/// A byte or a number that stands for nothing where it was found.
#[derive(Clone, Copy, Debug, PartialEq, Eq, Hash)]
pub struct UnknownCode;

/// What a term is, and what follows in its body: the byte that it begins with tells it, 0 to 7. The terms themselves are
/// told at `Term`.
#[derive(Clone, Copy, Debug, PartialEq, Eq, Hash)]
pub enum Code {
    /// Nothing follows.
    Nothing = 0,
    /// Nothing follows.
    Everything,
    /// The number of a concept follows.
    Concept,
    /// The number of an individual follows.
    Just,
    /// A term follows.
    Not,
    /// Two terms follow.
    And,
    /// A role item and a term follow.
    Exists,
    /// A count, a role item and a term follow.
    AtLeast,
}

/// The code of a byte, 0 to 7, as `specs/Codes` has it. Every other byte is refused.
impl TryFrom<u8> for Code {
    type Error = UnknownCode;

    ghost try_from_gives = { λ byte r. r ≡ ok_or (code_of byte) (record {}) };

    fn try_from(byte: u8) -> Result<Code, UnknownCode> {
        match byte {
            0 => Ok(Code::Nothing),
            1 => Ok(Code::Everything),
            2 => Ok(Code::Concept),
            3 => Ok(Code::Just),
            4 => Ok(Code::Not),
            5 => Ok(Code::And),
            6 => Ok(Code::Exists),
            7 => Ok(Code::AtLeast),
            _ => Err(UnknownCode),
        }
    }
}

/// The byte of a code.
impl From<Code> for u8 {
    ghost from_gives = { λ code byte. byte ≡ code_byte code };

    fn from(code: Code) -> u8 {
        code as u8
    }
}

/// Which way round a role is taken: the byte of a role item tells it, 0 or 1.
#[derive(Clone, Copy, Debug, PartialEq, Eq, Hash)]
pub enum Direction {
    /// As it is.
    Forward = 0,
    /// The other way round.
    Inverse,
}

/// The direction of a byte, 0 or 1. Every other byte is refused.
impl TryFrom<u8> for Direction {
    type Error = UnknownCode;

    ghost try_from_gives = { λ byte r. r ≡ ok_or (direction_of byte) (record {}) };

    fn try_from(byte: u8) -> Result<Direction, UnknownCode> {
        match byte {
            0 => Ok(Direction::Forward),
            1 => Ok(Direction::Inverse),
            _ => Err(UnknownCode),
        }
    }
}

/// The byte of a direction.
impl From<Direction> for u8 {
    ghost from_gives = { λ direction byte. byte ≡ direction_byte direction };

    fn from(direction: Direction) -> u8 {
        direction as u8
    }
}
