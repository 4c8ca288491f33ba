// Scripts: a call to a line, performed one after the other on a book that begins empty.
ghost use Rattle.std.specs.Prelude.{◌≡◌, [], ◌∷◌, ◌++◌, IfOk, IfSome, List, OnErr, OnOk, map, string_bytes};
ghost use Rattle.runs.specs.Answers.{answer_text};
ghost use Rattle.runs.specs.Promise.{AreOfBytes};
ghost use Rattle.runs.specs.Steps.{Step, standing};
ghost use Rattle.scripts.specs.Lines.{asked_of, line_request};
ghost use Rattle.scripts.specs.Replies.{reply};
ghost use Rattle.scripts.specs.Scripts.{
  LineDone,
  LinePromise,
  ScriptDone,
  line_outcome,
};

use crate::halt::{Halt, ScriptFault};
use crate::marks::{mark, write};
use crate::request::{Request, request_of};
use runs::{Answer, State};
use std::alloc::{AllocError, Global};

// No memory is left for the first line.
const NO_MEMORY: ScriptFault = ScriptFault {
    line: 1,
    halt: Halt::Memory,
};

// Adds the answer to a call, on a line of its own. The line is made in a text that is there for this, so that where memory
// has run out nothing is added.
fn add_answer(answers: &mut String, made: &mut String, answer: Answer) -> Result<(), AllocError>
    ensures added { OnOk result (string_bytes answers.new
        ≡ string_bytes answers.old ++ (answer_text answer.0 ++ 10 ∷ [])) }
    ensures kept { OnErr result (string_bytes answers.new ≡ string_bytes answers.old) }
{
    made.clear();
    writeln!(made, "{answer}")?;
    answers.push_str(made.as_str())
}

// Adds an answer that is there already, on a line of its own; where memory has run out nothing is added.
fn add_line(answers: &mut String, answer: String) -> Result<(), AllocError>
    ensures added { OnOk result (string_bytes answers.new
        ≡ string_bytes answers.old ++ (string_bytes answer ++ 10 ∷ [])) }
    ensures kept { OnErr result (string_bytes answers.new ≡ string_bytes answers.old) }
{
    let mut line = answer;
    line.push('\n')?;
    answers.push_str(line.as_str())
}

// Does what a line asks for, and answers the book after it; where memory has run out nothing is answered.
fn perform_request(
    heap: Global,
    state: State,
    request: Request,
    answers: &mut String,
    made: &mut String,
) -> Result<State, AllocError>
    ensures after { IfOk result (λ s.
        standing s ≡ (reply (standing state) (asked_of request)).state) }
    ensures answer { let text = (reply (standing state) (asked_of request)).answer in
        OnOk result (string_bytes answers.new ≡ string_bytes answers.old ++ (text ++ 10 ∷ [])) }
    ensures kept { OnErr result (string_bytes answers.new ≡ string_bytes answers.old) }
    ensures promise { OnOk result
        ((cs : List Step) → AreOfBytes cs → LinePromise cs (Some (asked_of request))) }
{
    match request {
        Request::Perform(call) => {
            let (state, outcome) = state.perform(&call);
            add_answer(answers, made, Answer(outcome))?;
            Ok(state)
        }
        Request::Mark {
            pile,
            axioms,
            names,
        } => {
            let answer = mark(heap, &state, &pile, axioms, names)?;
            add_line(answers, answer)?;
            Ok(state)
        }
        Request::Write {
            pile,
            axioms,
            names,
            part,
        } => {
            let answer = write(heap, &state, &pile, axioms, names, part)?;
            add_line(answers, answer)?;
            Ok(state)
        }
    }
}

// Does what a line asks for, if anything, and answers the book after it.
fn perform_line(
    heap: Global,
    state: State,
    line: &str,
    answers: &mut String,
    made: &mut String,
) -> Result<State, Halt>
    ensures done { LineDone (string_bytes answers.old) (string_bytes answers.new) result
        (line_outcome (standing state) (line_request line.now)) }
    ensures promise { OnOk result
        ((cs : List Step) → AreOfBytes cs → IfOk (line_request line.now) (LinePromise cs)) }
{
    match request_of(heap, line)? {
        None => Ok(state),
        Some(request) => Ok(perform_request(heap, state, request, answers, made)?),
    }
}

/// Performs the calls of a script on an empty draft, one a line, and adds an answer for each on a line of its own. The first
/// line that is no call ends it, and so does want of memory; the answers before it stay. The rules of lines and answers stand
/// in docs/SCRIPTS.md.
pub fn perform_lines(heap: Global, script: &str, answers: &mut String) -> Result<(), ScriptFault>
    ensures { ScriptDone script.now (string_bytes answers.old) (string_bytes answers.new) result }
{
    let mut state = match State::open(heap) {
        Ok(state) => state,
        Err(_) => return Err(NO_MEMORY),
    };
    let mut made = String::new(heap);
    for (before, line) in script.split('\n').enumerate() {
        match perform_line(heap, state, line, answers, &mut made) {
            Ok(after) => state = after,
            Err(halt) => {
                return Err(ScriptFault {
                    line: before + 1,
                    halt,
                });
            }
        }
    }
    Ok(())
}
