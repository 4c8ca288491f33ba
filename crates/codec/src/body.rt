ghost use Rattle.std.specs.Prelude.{◌≡◌, ◌≤◌, length};

use std::marker::Model;

/// How many bytes a body may have.
pub const LONGEST_BODY: usize = 512;

/// The body of a record, or of an axiom that is filed: at most 512 bytes. A clause sees its bytes.
#[derive(Drop)]
pub struct Body<'a> {
    bytes: &'a [u8],
}

impl<'a> Model for Body<'a> {
    ghost use Rattle.std.specs.Prelude.{ℕ, ◌≤◌, List, length};
    ghost use Rattle.codec.specs.Bodies.{longest_body};

    ghost Value = { List ℕ };

    ghost view = { λ b. b.bytes.now };

    ghost invariant = { λ b. length b.bytes.now ≤ longest_body };
}

impl<'a> Body<'a> {
    ghost use Rattle.codec.specs.Bodies.{longest_body, body_of};

    /// The body with these bytes, unless there are more than 512.
    pub fn new(bytes: &'a [u8]) -> Option<Body<'a>>
        ensures { result ≡ body_of bytes.now }
    {
        if bytes.len() <= LONGEST_BODY {
            Some(Body { bytes })
        } else {
            None
        }
    }

    /// Its bytes.
    pub fn as_bytes(&self) -> &[u8]
        ensures value { result.now ≡ self.now }
        ensures bound { length result.now ≤ longest_body }
    {
        self.bytes
    }

    /// How many bytes it has, at most 512.
    pub fn len(&self) -> usize
        ensures value { result ≡ length self.now }
        ensures bound { result ≤ longest_body }
    {
        self.as_bytes().len()
    }
}
