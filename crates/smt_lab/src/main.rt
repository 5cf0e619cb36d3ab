//! The program `smt-lab`: it reads its words, makes the devices that they name, has
//! `lab_commands::run` serve the request, and ends with its line and status.
#![tactic(auto)]

ghost use Rattle.std.specs.Prelude.{◌≡◌, IfErr, IfOk, codes, false};
ghost use Rattle.lab_commands.specs.CommandLine.{IsBounded, file_of};
ghost use Rattle.lab_commands.specs.Commands.{NamesItsDevice};
ghost use Rattle.lab_commands.specs.Refusals.{UnreadOf, UnwrittenOf};
ghost use Rattle.lab_commands.specs.Watched.{fails, name_text};

use lab_commands::device::{Sink, Watched};
use lab_commands::run;
use lab_commands::run::{
    Failure, Invocation, Refusal, Request, explain, serve, show_help, status, tell, unread,
};
use refusal_codes::Code;
use std::alloc::{AllocError, Global};
use std::io::Printer;
use std::process::ExitCode;
use std::rt::{Env, Files};
use std::{env, fs, io};

/// The words of the command line after the program's name.
fn arguments<'a, R: Env + AllocGlobal>(
    rt: &R,
    alloc: &'a Global,
) -> Result<Vec<String>, Failure<&'a Global>> {
    match env::args(rt) {
        Ok(words) => Ok(words.skip(1).collect(*alloc)?),
        Err(error) if error.kind() == io::ErrorKind::OutOfMemory => {
            Err(Failure::Refused(Refusal::OutOfMemory))
        }
        Err(_) => Err(Failure::NotUnicode),
    }
}

/// The file at a path, opened, under its path as its name.
fn source<'a, R: Files>(
    rt: &R,
    alloc: &'a Global,
    path: &str,
) -> Result<Watched<R::File, &'a Global>, Refusal<&'a Global>>
    ensures works { IfOk result (λ file. fails file ≡ false) }
    ensures name { IfOk result (λ file. name_text file ≡ path.now) }
    ensures err { IfErr result (UnreadOf path.now) }
{
    let name = String::from_str(alloc, path)?;
    match fs::open(rt, path) {
        Ok(file) => Ok(Watched::new(file, name)),
        Err(_) => Err(unread(alloc, path)),
    }
}

/// Standard output, under the name `-`.
fn standard_output<'a, 'b, R: Print>(
    rt: &'b R,
    alloc: &'a Global,
) -> Result<Watched<Printer<'b, R>, &'a Global>, AllocError>
    ensures works { IfOk result (λ output. fails output ≡ false) }
    ensures name { IfOk result (λ output. name_text output ≡ codes "-") }
{
    let name = String::from_str(alloc, "-")?;
    Ok(Watched::new(io::writer(rt), name))
}

/// Serves a request over the real file and standard output.
fn answer<'a, R: Files + Print>(
    rt: &R,
    alloc: &'a Global,
    request: Request<'_>,
) -> Result<(), Refusal<&'a Global>>
    requires { IsBounded request }
    ensures { IfErr result (NamesItsDevice (file_of request.entry) (codes "-")) }
{
    let mut output = standard_output(rt, alloc)?;
    let mut input = source(rt, alloc, request.file())?;
    serve(alloc, *alloc, request, &mut input, &mut output)
}

/// Writes what a code means to standard output.
fn meaning<'a, R: Print>(rt: &R, alloc: &'a Global, code: Code) -> Result<(), Refusal<&'a Global>>
    ensures { IfErr result (UnwrittenOf (codes "-")) }
{
    let mut output = standard_output(rt, alloc)?;
    explain(alloc, code, &mut output)
}

/// Does what the words of the command line ask for.
fn obey<'a, R: Env + AllocGlobal + Files + Print>(
    rt: &R,
    alloc: &'a Global,
) -> Result<(), Failure<&'a Global>> {
    let words = arguments(rt, alloc)?;
    match run::words(*alloc, words.as_slice()) {
        Ok(Invocation::Serve(request)) => Ok(answer(rt, alloc, request)?),
        Ok(Invocation::Explain(code)) => Ok(meaning(rt, alloc, code)?),
        Err(error) => {
            let mut output = standard_output(rt, alloc)?;
            show_help(alloc, error, &mut output)
        }
    }
}

fn main(rt: HostRuntime) -> ExitCode {
    let alloc = rt.alloc();
    let outcome = obey(&rt, &alloc);
    let _ = tell(&outcome, &mut rt.stderr());
    status(&outcome)
}
