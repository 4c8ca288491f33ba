// The piles by the words that name them.
ghost use Rattle.std.specs.Prelude.{◌≡◌, ℕ, List, [], ◌∷◌, Option};
ghost use Rattle.std.specs.Option.{option_map};
ghost use Rattle.scripts.specs.Piles.{pile_named, stages_named, test_named};

use arrayvec::ArrayVec;
use extraction::{Pile, Whole};
use locality::Test;
use std::marker::Model;

/// How many stages a pile by words may have.
pub const MOST_STAGES: usize = 16;

/// A type of locality tests that each have a word.
pub trait Worded: Sized {
    ghost named: { List ℕ → Option Self };

    /// The test with a word, if there is one.
    fn from_word(word: &str) -> Option<Self>
        ensures { result ≡ named word.now };
}

/// The words of the tests, as docs/SCRIPTS.md has them.
impl Worded for Test {
    ghost named = { test_named };

    fn from_word(word: &str) -> Option<Test> {
        match word {
            "bottom" => Some(Test::Bottom),
            "top" => Some(Test::Top),
            _ => None,
        }
    }
}

/// A pile by words: its tests from the uppermost down, none for the whole extractor. A clause sees the list of the tests.
#[derive(Debug, Drop)]
pub struct NamedPile<T> {
    tests: ArrayVec<T, MOST_STAGES>,
}

impl<T> Model for NamedPile<T> {
    ghost use Rattle.std.specs.Coded.{coded_list};
    ghost use Rattle.std.specs.Prelude.{List};

    ghost Value = { List T };

    ghost coded = { coded_list T.code };

    ghost view = { λ p. p.tests.items };
}

// The tests whose words stand in a word with `/` between them.
fn stages_of<T: Worded + Default + Drop>(word: &str) -> Option<ArrayVec<T, MOST_STAGES>>
    ensures { option_map (λ v. v.items) result ≡ stages_named T.Worded.named word.now }
{
    let mut tests = ArrayVec::new();
    let mut rest = word;
    while !tests.is_full() {
        let Some((first, behind)) = rest.split_once('/') else {
            tests.push(T::from_word(rest)?);
            return Some(tests);
        };
        tests.push(T::from_word(first)?);
        rest = behind;
    }
    None
}

impl<T: Worded + Default + Drop> NamedPile<T> {
    /// The pile that a word names: `whole`, or the words of 1 to 16 tests with `/` between them, from the uppermost down.
    pub fn from_word(word: &str) -> Option<NamedPile<T>>
        ensures { result ≡ pile_named T.Worded.named word.now }
    {
        if word == "whole" {
            return Some(NamedPile {
                tests: ArrayVec::new(),
            });
        }
        Some(NamedPile {
            tests: stages_of(word)?,
        })
    }

    /// The pile of one stage over the whole extractor.
    pub fn single(test: T) -> NamedPile<T>
        ensures { result ≡ test ∷ [] }
    {
        let mut tests = ArrayVec::new();
        tests.push(test);
        NamedPile { tests }
    }

    /// The extractor that the pile is: its stages, one above the other, over the whole extractor.
    pub fn extractor(&self) -> Pile<'_, T, Whole>
        ensures { result.tests.now ≡ self.now }
    {
        Pile {
            tests: self.tests.as_slice(),
            below: Whole,
        }
    }
}
