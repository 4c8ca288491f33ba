// The example that is shown where no command is given: a book of a substation, and every call on it.
ghost use Rattle.std.specs.Prelude.{◌≡◌, IfOk, map};
ghost use Rattle.std.specs.Option.{option_map};
ghost use Rattle.runs.specs.Fitting.{refusal_in};
ghost use Rattle.terms.specs.Codes.{kind_number};
ghost use Rattle.vocabulary.specs.Kinds.{code_of};
ghost use Rattle.runs.specs.Steps as steps;
ghost use Rattle.runs.specs.Steps.{standing, step_of, call_turn, state_from};

use crate::cut::Module;
use crate::failure::Failure;
use book::{AxiomId, Draft};
use locality::Test;
use notation::{Listing, Told};
use runs::{Answer, Call, CallFault, Edit, Outcome, State};
use scripts::NamedPile;
use std::alloc::{AllocError, Global};
use terms::AxiomKind;
use vocabulary::{Kind, NameId};

// A book file with 15 records: seven names, a seed and seven axioms.
const RECORDS: usize = 15;

const SUBSTATION: &[u8] = b"\
    \x06\x00\x01\x00\x00Relay\
    \x09\x00\x01\x00\x00Distance\
    \x06\x00\x01\x00\x00Input\
    \x04\x00\x01\x00\x00Bay\
    \x04\x00\x01\x00\x01has\
    \x03\x00\x01\x00\x01in\
    \x03\x00\x01\x00\x02Q1\
    \x02\x00\x20\x00\x00\x00\
    \x06\x00\x10\x00\x02\x01\x00\x02\x00\x00\
    \x0c\x00\x10\x00\x02\x01\x00\x07\x02\x00\x00\x04\x00\x02\x02\x00\
    \x0a\x00\x10\x00\x02\x00\x00\x06\x00\x05\x00\x02\x03\x00\
    \x07\x00\x10\x00\x02\x03\x00\x04\x02\x00\x00\
    \x08\x00\x10\x00\x06\x00\x04\x00\x01\x02\x00\x00\
    \x05\x00\x15\x00\x06\x00\x02\x01\x00\
    \x02\x00\x13\x00\x05\x00\
";

// A call of the example, told in words.
#[derive(Drop)]
struct Step {
    words: &'static str,
    call: Call,
}

fn name(heap: Global, words: &'static str, kind: Kind, label: &[u8]) -> Result<Step, AllocError>
    ensures { IfOk result (λ s.
        step_of s.call ≡ steps.change (steps.name (code_of kind) label.now)) }
{
    let kind = u8::from(kind);
    let label = Vec::from_slice(heap, label)?;
    Ok(Step {
        words,
        call: Call::Edit(Edit::Name { kind, label }),
    })
}

fn file(heap: Global, words: &'static str, kind: AxiomKind, body: &[u8]) -> Result<Step, AllocError>
    ensures { IfOk result (λ s.
        step_of s.call ≡ steps.change (steps.file (kind_number kind) body.now)) }
{
    let kind = u16::from(kind);
    let body = Vec::from_slice(heap, body)?;
    Ok(Step {
        words,
        call: Call::Edit(Edit::File { kind, body }),
    })
}

fn load(heap: Global, words: &'static str, file: &[u8]) -> Result<Step, AllocError>
    ensures { IfOk result (λ s. step_of s.call ≡ steps.change (steps.load file.now)) }
{
    let file = Vec::from_slice(heap, file)?;
    Ok(Step {
        words,
        call: Call::Edit(Edit::Load { file }),
    })
}

// The steps after loading: each call once, and three that are refused or not allowed.
fn changes(heap: Global) -> Result<Vec<Step>, AllocError> {
    let steps = vec![in heap;
        name(heap, "name the individual Q2", Kind::Individual, b"Q2")?,
        file(
            heap,
            "file in(Q1, Q2)",
            AxiomKind::RoleAssertion,
            b"\x05\x00\x06\x00\x07\x00"
        )?,
        Step {
            words: "lay axiom 3 aside",
            call: Call::Edit(Edit::LayAside(AxiomId(3)))
        },
        Step {
            words: "lay axiom 7 aside",
            call: Call::Edit(Edit::LayAside(AxiomId(7)))
        },
        Step {
            words: "restore axiom 7",
            call: Call::Edit(Edit::Restore(AxiomId(7)))
        },
        Step {
            words: "seed name 1",
            call: Call::Edit(Edit::Seed(NameId(1)))
        },
        Step {
            words: "unseed name 0",
            call: Call::Edit(Edit::Unseed(NameId(0)))
        },
        name(
            heap,
            "name the individual Q2 once more",
            Kind::Individual,
            b"Q2"
        )?,
        file(
            heap,
            "file a body with a role where a concept is wanted",
            AxiomKind::Inclusion,
            b"\x02\x00\x00\x02\x04\x00"
        )?,
        Step {
            words: "freeze the book",
            call: Call::Freeze
        },
        Step {
            words: "seed name 2 of the frozen book",
            call: Call::Edit(Edit::Seed(NameId(2)))
        },
        Step {
            words: "reopen the book",
            call: Call::Reopen
        },
    ]?;
    Ok(steps)
}

// What a refused call has to say beyond its numbers.
fn refusal(outcome: Outcome) -> Option<Told>
    ensures { option_map (λ told. told.0) result ≡ refusal_in outcome }
{
    match outcome {
        Err(CallFault::Refused(refusal) | CallFault::LoadRefused(refusal, _)) => {
            Some(Told(refusal))
        }
        Err(CallFault::NotAllowed) | Ok(_) => None,
    }
}

// Makes the call of a step, and prints the step and its outcome.
fn take(rt: &HostRuntime, state: State, step: Step) -> Result<State, Failure>
    ensures { IfOk result (λ s.
        standing s ≡ (call_turn (standing state) (step_of step.call)).state) }
{
    let Step { words, call } = step;
    let (state, outcome) = state.perform(&call);
    let answer = Answer(outcome);
    println!(rt; "{words}: {answer}")?;
    if let Some(told) = refusal(outcome) {
        println!(rt; "    {told}")?;
    }
    Ok(state)
}

fn take_all(rt: &HostRuntime, state: State, steps: Vec<Step>) -> Result<State, Failure>
    ensures { IfOk result (λ s.
        standing s ≡ state_from (standing state) (map (λ step. step_of step.call) steps.items)) }
{
    let mut state = state;
    for step in steps {
        state = take(rt, state, step)?;
    }
    Ok(state)
}

fn list(rt: &HostRuntime, state: &State) -> Result<(), Failure> {
    let listing = Listing(state.book());
    rt.print(format!(in rt.alloc(); "\nthe book holds\n{listing}")?)?;
    Ok(())
}

// The edits of a cut for Relay, which the file seeds too; what is said of Q1 alone is laid aside.
fn cut_edits(heap: Global) -> Result<Vec<Edit>, AllocError> {
    let file = Vec::from_slice(heap, SUBSTATION)?;
    let edits = vec![in heap;
        Edit::Load { file },
        Edit::Seed(NameId(0)),
        Edit::LayAside(AxiomId(5)),
    ]?;
    Ok(edits)
}

// Shows every call of a draft and of a frozen book.
fn show_calls(rt: &HostRuntime) -> Result<(), Failure> {
    let empty = State::open(rt.alloc())?;
    println!(rt; "open a draft: ok")?;
    let opened = take(
        rt,
        empty,
        load(rt.alloc(), "load the book of a substation", SUBSTATION)?,
    )?;
    list(rt, &opened)?;
    println!(rt; "\nevery call, one after the other")?;
    let changed = take_all(rt, opened, changes(rt.alloc())?)?;
    list(rt, &changed)
}

// Cuts out the module for the signature, and loads its part again.
fn show_cut(rt: &HostRuntime) -> Result<(), Failure> {
    println!(rt;
        "\nthe module for the seeded names, through the bottom test, with axiom 5 laid aside"
    )?;
    let edits = cut_edits(rt.alloc())?;
    let draft = Draft::open(rt.alloc())?;
    let bottom = NamedPile::single(Test::Bottom);
    let module = Module::of(rt.alloc(), &bottom, draft, edits.as_slice())?;
    let report = module.report(RECORDS);
    rt.print(format!(in rt.alloc(); "{report}")?)?;
    let reload = load(
        rt.alloc(),
        "load the part into an empty book",
        module.part(),
    )?;
    let again = take(rt, State::open(rt.alloc())?, reload)?;
    list(rt, &again)
}

// Loads the example, shows it, makes every call on it, shows what came of it, and cuts out the module for its signature.
pub(crate) fn show(rt: &HostRuntime) -> Result<(), Failure> {
    show_calls(rt)?;
    show_cut(rt)
}
