// The words of the command line.
ghost use Rattle.std.specs.Prelude.{◌≡◌, IfOk, bytes_eq, map, string_bytes};
ghost use Rattle.std.specs.List.{list_any};
ghost use Rattle.std.specs.Option.{option_map};
ghost use Rattle.winavulor.specs.Faults.{fault_of, no_pile, usage_fault, verbs};
ghost use Rattle.winavulor.specs.Options.{any_option, is_option};

use locality::Test;
use scripts::NamedPile;
use std::alloc::{AllocError, Global};
use thiserror::Error;

/// The usage text.
pub const USAGE: &str = "usage:
  winavulor                show an example book, and every call on it
  winavulor check BOOK     load a book file, and tell what it holds or why it is refused
  winavulor show BOOK      load a book file, and list its names, its axioms and which are local
  winavulor cut BOOK PART [--pile PILE] [KIND:LABEL ...]
                           load a book file, seed the names beside its own seeds, write the part of the book for them
                           to the new file PART, and tell what is kept
  winavulor run SCRIPT     perform the calls of a script, and answer each
  winavulor help           print this text
a PILE is whole, or 1 to 16 of bottom and top joined by /, from the uppermost stage down; it is bottom where none is given
a KIND is concept, role or individual";

/// What is to be cut out of a book file and written to another, for which names, and through which pile.
#[derive(Debug, Drop)]
pub struct Order<'a> {
    /// The path of the book file.
    pub book: &'a str,
    /// The path of the file that the part goes to.
    pub part: &'a str,
    /// The pile that is marked through.
    pub pile: NamedPile<Test>,
    /// The words KIND:LABEL of the names in use.
    pub names: &'a [String],
}

/// A task of the program, with the words that it is for.
#[derive(Debug, Drop)]
pub enum Command<'a> {
    /// Shows the example.
    Example,
    /// Prints the usage text.
    Help,
    /// Tells what a book file holds.
    Check(&'a str),
    /// Lists a book file.
    Show(&'a str),
    /// Performs a script.
    Run(&'a str),
    /// Cuts a part out of a book file.
    Cut(Order<'a>),
}

// Whether a word is an option, which no file and no name of a cut is.
fn is_option(word: &str) -> bool
    ensures { result ≡ is_option word.now }
{
    word.starts_with("--")
}

fn has_option(words: &[String]) -> bool
    ensures { result ≡ list_any (λ w. is_option (string_bytes w)) words.now }
{
    words.iter().any(|word| is_option(word.as_str()))
}

// Whether a word of a cut is an option, beside that for its pile.
#[tactic(auto, using(crate::proofs::Options::any_mapped))]
fn any_option(book: &str, part: &str, names: &[String]) -> bool
    ensures { result ≡ any_option book.now part.now (map string_bytes names.now) }
{
    is_option(book) || is_option(part) || has_option(names)
}

impl<'a> Command<'a> {
    ghost use Rattle.winavulor.specs.Commands.{cut_task, file_task, lone_task, plain_cut, task, task_of};

    // The command of the words after the program's own name, if they are one.
    pub(crate) fn of(words: &'a [String]) -> Option<Command<'a>>
        ensures { option_map task_of result ≡ task (map string_bytes words.now) }
    {
        match words {
            [] => Some(Command::Example),
            [verb] => Command::alone(verb.as_str()),
            [verb, path] => Command::on_file(verb.as_str(), path.as_str()),
            [verb, book, part, rest @ ..] if verb.as_str() == "cut" => {
                Command::cut(book.as_str(), part.as_str(), rest)
            }
            _ => None,
        }
    }

    // A cut, from the words after the two files.
    #[tactic(auto, using(crate::proofs::Options::no_pile))]
    fn cut(book: &'a str, part: &'a str, words: &'a [String]) -> Option<Command<'a>>
        ensures { let rest = map string_bytes words.now in
            option_map task_of result ≡ cut_task book.now part.now rest }
    {
        match words {
            [option, pile, names @ ..] => {
                if option.as_str() == "--pile" {
                    Command::plain_cut(book, part, NamedPile::from_word(pile.as_str())?, names)
                } else {
                    Command::plain_cut(book, part, NamedPile::single(Test::Bottom), words)
                }
            }
            [_] | [] => Command::plain_cut(book, part, NamedPile::single(Test::Bottom), words),
        }
    }

    // A cut through a pile; no other word of it is an option.
    fn plain_cut(
        book: &'a str,
        part: &'a str,
        pile: NamedPile<Test>,
        names: &'a [String],
    ) -> Option<Command<'a>>
        ensures { let words = map string_bytes names.now in
            option_map task_of result ≡ plain_cut book.now part.now pile words }
    {
        if any_option(book, part, names) {
            return None;
        }
        Some(Command::Cut(Order {
            book,
            part,
            pile,
            names,
        }))
    }

    fn alone(verb: &str) -> Option<Command<'a>>
        ensures { option_map task_of result ≡ lone_task verb.now }
    {
        match verb {
            "help" | "--help" | "-h" => Some(Command::Help),
            _ => None,
        }
    }

    fn on_file(verb: &str, path: &'a str) -> Option<Command<'a>>
        ensures { option_map task_of result ≡ file_task verb.now path.now }
    {
        match verb {
            "check" => Some(Command::Check(path)),
            "show" => Some(Command::Show(path)),
            "run" => Some(Command::Run(path)),
            _ => None,
        }
    }
}

/// Why words are no command, with the word that is wrong.
#[derive(Debug, Drop, Error)]
pub enum UsageFault {
    /// No command begins with this word.
    #[error("there is no command '{0}'")]
    UnknownCommand(String),
    /// The words behind this command are not its own.
    #[error("the command '{0}' has a word too few, too many, or unknown")]
    WrongWords(String),
    /// No pile has this word.
    #[error("there is no pile '{0}'")]
    UnknownPile(String),
}

fn is_known(verb: &str) -> bool
    ensures { result ≡ list_any (bytes_eq verb.now) verbs }
{
    matches!(
        verb,
        "check" | "show" | "cut" | "run" | "help" | "--help" | "-h"
    )
}

// The word for a pile that a cut is given, where it names none.
fn unknown_pile(words: &[String]) -> Option<&str>
    ensures { option_map (λ w. w.now) result ≡ no_pile (map string_bytes words.now) }
{
    match words {
        [verb, _, _, option, pile, ..] if verb.as_str() == "cut" && option.as_str() == "--pile" => {
            let named: Option<NamedPile<Test>> = NamedPile::from_word(pile.as_str());
            named.is_none().then_some(pile.as_str())
        }
        _ => None,
    }
}

impl UsageFault {
    // What is wrong with words that are no command.
    pub(crate) fn of(heap: Global, words: &[String]) -> Result<UsageFault, AllocError>
        ensures { IfOk result (λ f. fault_of f ≡ usage_fault (map string_bytes words.now)) }
    {
        if let Some(pile) = unknown_pile(words) {
            return Ok(UsageFault::UnknownPile(String::from_str(heap, pile)?));
        }
        match words {
            [verb, ..] if is_known(verb.as_str()) => Ok(UsageFault::WrongWords(verb.clone()?)),
            [verb, ..] => Ok(UsageFault::UnknownCommand(verb.clone()?)),
            [] => Ok(UsageFault::UnknownCommand(String::new(heap))),
        }
    }
}
