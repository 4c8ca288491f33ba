ghost use Rattle.std.specs.Prelude.{◌≡◌, ℕ, true, false, List, [], ◌∷◌, ◌++◌, length};
ghost use Rattle.terms.specs.Numbers.{two_bytes};
ghost use Rattle.writer.specs.Sinks.{Took, Counted};
ghost use Rattle.writer.specs.lemmas.Sinks.{took_nothing, took_more, counted_nothing, counted_more};

/// What takes bytes, one after the other. What a sink is after some bytes is told by its `takes`, for a cursor and for a
/// count in `specs/Sinks`.
pub trait Sink {
    // these bytes lead from the first state to the last
    ghost takes: { Self → List ℕ → Self → Type 0 };

    /// Takes a byte.
    fn put(&mut self, byte: u8)
        ensures { takes self.old (byte ∷ []) self.new };

    /// Whether no byte makes a difference any more, so that what puts many may stop.
    fn is_full(&self) -> bool
        ensures { result ≡ true → (bytes : List ℕ) → takes self.now bytes self.now }
    {
        false
    }

    /// Takes so many bytes by their count alone, and answers true, if they make no other difference; else takes none, and
    /// answers false.
    fn put_count(&mut self, count: usize) -> bool
        ensures taken { result ≡ true → (bytes : List ℕ) → length bytes ≡ count →
            takes self.old bytes self.new }
        ensures left { result ≡ false → self.new ≡ self.old }
    {
        false
    }

    /// Takes bytes in their order at once, and answers true, if it can; else takes none, and answers false.
    fn put_at_once(&mut self, bytes: &[u8]) -> bool
        ensures taken { result ≡ true → takes self.old bytes.now self.new }
        ensures left { result ≡ false → self.new ≡ self.old }
    {
        self.put_count(bytes.len())
    }

    // no bytes change nothing
    ghost nothing: { (s : Self) → takes s [] s };

    // bytes, and more bytes after them
    ghost more: { (s m t : Self) (xs ys zs : List ℕ) →
        takes s xs m → takes m ys t → zs ≡ xs ++ ys → takes s zs t };

    /// Takes bytes in their order.
    final fn put_all(&mut self, bytes: &[u8])
        ensures { takes self.old bytes.now self.new }
    {
        if self.put_at_once(bytes) {
            return;
        }
        for byte in bytes {
            self.put(*byte);
        }
    }

    /// Takes a number of two bytes, the low one first.
    final fn put_number(&mut self, number: u16)
        ensures { takes self.old (two_bytes number) self.new }
    {
        self.put_all(&number.to_le_bytes());
    }
}

/// A place in a buffer, where the next byte goes.
#[derive(Drop)]
pub struct Cursor<'a> {
    /// The buffer.
    pub out: &'a mut [u8],
    /// The place of the next byte; None from the first byte on that had no room.
    pub at: Option<usize>,
}

/// A byte goes to the cursor's place, if it lies in the buffer.
impl Sink for Cursor<'_> {
    ghost takes = { Took };

    ghost nothing = { took_nothing };

    ghost more = { took_more };

    fn put(&mut self, byte: u8) {
        let Some(at) = self.at else {
            return;
        };
        if at < self.out.len() {
            self.out[at] = byte;
            self.at = Some(at + 1);
        } else {
            self.at = None;
        }
    }

    fn put_at_once(&mut self, bytes: &[u8]) -> bool {
        let Some(at) = self.at else {
            return true;
        };
        if at > self.out.len() || bytes.len() > self.out.len() - at {
            return false;
        }
        let end = at + bytes.len();
        self.out[at..end].copy_from_slice(bytes);
        self.at = Some(end);
        true
    }

    fn is_full(&self) -> bool {
        self.at.is_none()
    }
}

/// How many bytes there were.
#[derive(Clone, Copy, Debug, Default, PartialEq, Eq, Hash)]
pub struct Length {
    /// Their count, up to the greatest number that a usize holds.
    pub bytes: usize,
}

/// A byte is counted, and not kept.
impl Sink for Length {
    ghost takes = { Counted };

    ghost nothing = { counted_nothing };

    ghost more = { counted_more };

    fn put(&mut self, _byte: u8) {
        self.bytes = self.bytes.saturating_add(1);
    }

    fn put_count(&mut self, count: usize) -> bool {
        self.bytes = self.bytes.saturating_add(count);
        true
    }
}
