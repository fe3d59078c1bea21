//! The program: the words after its name, standard input, files and standard output go to the top call.
#![tactic(auto)]

use ftpp_base::OpenGate;
use ftpp_outside::{StdShelf, StdSink, StdSource};
use ftpp_top::top;
use link_fabric::Mesh;
use std::process::ExitCode;
use std::rt::Env;
use std::{env, io};

// The exit where the system does not give the words.
const NO_WORDS: u8 = 9;

// The words after the program's name.
fn words<R: Env + AllocGlobal>(rt: &R) -> io::Result<Vec<String>> {
    let mut given = env::args(rt)?;
    let _name = given.next();
    let mut words = Vec::new(rt.alloc());
    for word in given {
        words.push(word)?;
    }
    Ok(words)
}

fn main(rt: HostRuntime) -> ExitCode {
    let Ok(words) = words(&rt) else {
        return ExitCode::from(NO_WORDS);
    };
    let mut input = StdSource::new(rt.stdin());
    let mut shelf = StdShelf::new(&rt);
    let mut out = StdSink::new(rt.stdout());
    let status = top(
        &rt,
        rt.alloc(),
        words.as_slice(),
        &mut input,
        &mut shelf,
        &mut Mesh,
        &OpenGate,
        &mut out,
    );
    ExitCode::from(status.exit())
}
