// The words that calls begin with.
ghost use Rattle.std.specs.Prelude.{◌≡◌};
ghost use Rattle.scripts.specs.Words.{verb_named};

/// The words that calls begin with.
#[derive(Clone, Copy, Debug, PartialEq, Eq)]
pub enum Verb {
    /// Names.
    Name,
    /// Files an axiom.
    File,
    /// Loads a file.
    Load,
    /// Lays an axiom aside.
    Aside,
    /// Restores an axiom.
    Restore,
    /// Seeds a name.
    Seed,
    /// Unseeds a name.
    Unseed,
    /// Freezes the draft.
    Freeze,
    /// Reopens the frozen book.
    Reopen,
    /// Marks through a pile.
    Mark,
    /// Writes the part through a pile.
    Write,
}

// The call that begins with a word.
pub(crate) fn verb_of(word: &str) -> Option<Verb>
    ensures { result ≡ verb_named word.now }
{
    match word {
        "name" => Some(Verb::Name),
        "file" => Some(Verb::File),
        "load" => Some(Verb::Load),
        "aside" => Some(Verb::Aside),
        "restore" => Some(Verb::Restore),
        "seed" => Some(Verb::Seed),
        "unseed" => Some(Verb::Unseed),
        "freeze" => Some(Verb::Freeze),
        "reopen" => Some(Verb::Reopen),
        "mark" => Some(Verb::Mark),
        "write" => Some(Verb::Write),
        _ => None,
    }
}
