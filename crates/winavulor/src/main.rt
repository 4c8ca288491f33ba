//! The command line: it shows an example, checks and shows book files, cuts modules out of them, and performs scripts of
//! calls.
#![tactic(auto)]

mod command;
mod cut;
mod example;
mod failure;
mod files;
mod order;

use command::{Command, USAGE, UsageFault};
use failure::Failure;
use files::{loaded, read};
use notation::{Listing, Tally, Verdicts};
use scripts::perform_lines;
use std::process::ExitCode;
use std::{env, io};

fn check(rt: &HostRuntime, path: &str) -> Result<(), Failure> {
    let (draft, taken) = loaded(rt, path)?;
    let tally = Tally::of(draft.book());
    println!(rt; "accepted: {taken} records")?;
    rt.println(tally)?;
    Ok(())
}

fn show(rt: &HostRuntime, path: &str) -> Result<(), Failure> {
    let (draft, _) = loaded(rt, path)?;
    let book = draft.book();
    rt.print(format!(in rt.alloc(); "{}", Listing(book))?)?;
    rt.println("locality against the signature:")?;
    rt.print(format!(in rt.alloc(); "{}", Verdicts::of(book))?)?;
    Ok(())
}

// Performs a script; the answers are printed also where a line ends the run.
fn run(rt: &HostRuntime, path: &str) -> Result<(), Failure> {
    let bytes = read(rt, path)?;
    let script = String::from_utf8_lossy(rt.alloc(), bytes.as_slice())?;
    let mut answers = String::new(rt.alloc());
    let end = perform_lines(rt.alloc(), script.as_str(), &mut answers);
    rt.print(answers.as_str())?;
    end?;
    Ok(())
}

fn obey(rt: &HostRuntime, command: Command<'_>) -> Result<(), Failure> {
    match command {
        Command::Example => example::show(rt),
        Command::Help => Ok(rt.println(USAGE)?),
        Command::Check(path) => check(rt, path),
        Command::Show(path) => show(rt, path),
        Command::Run(path) => run(rt, path),
        Command::Cut(order) => order::carry_out(rt, order),
    }
}

fn answer(rt: &HostRuntime) -> Result<(), Failure> {
    let words = env::args(rt).map_err(Failure::Words)?;
    let words: Vec<String> = words.skip(1).collect(rt.alloc())?;
    match Command::of(words.as_slice()) {
        Some(command) => obey(rt, command),
        None => Err(Failure::Usage(UsageFault::of(rt.alloc(), words.as_slice())?)),
    }
}

fn main(rt: HostRuntime) -> io::Result<ExitCode> {
    match answer(&rt) {
        Ok(()) => Ok(ExitCode::SUCCESS),
        Err(failure) => {
            eprintln!(rt; "winavulor: {failure}")?;
            Ok(ExitCode::FAILURE)
        }
    }
}
