//! The program: the commands over the real files, input and output.
#![tactic(auto)]

mod disk;

use disk::Disk;
use std::alloc::{AllocError, Global};
use std::env;
use std::env::Env;
use std::fs::Files as FileSystem;
use std::io::{ErrorKind, Read, Write};
use std::process::ExitCode;
use std::sync::Wait;
use std::thread::Threads;
use wm_command::refusal_reason;
use wm_litmus::serve;

/// The arguments after the program's name.
#[derive(Drop)]
enum Arguments {
    Texts(Vec<String>),
    /// One of them is not valid text, which no command is.
    NotText,
}

impl Arguments {
    /// The arguments of the process.
    fn of_process<R: Env + AllocGlobal>(rt: &R) -> Result<Arguments, AllocError> {
        match env::args(rt) {
            Ok(args) => Ok(Arguments::Texts(args.skip(1).collect(rt.alloc())?)),
            Err(error) if error.kind() == ErrorKind::OutOfMemory => Err(AllocError),
            Err(_) => Ok(Arguments::NotText),
        }
    }

    /// The arguments as strings; none if one of them is not valid text.
    fn texts(&self) -> &[String] {
        match self {
            Arguments::Texts(texts) => texts.as_slice(),
            Arguments::NotText => &[],
        }
    }

    /// Why the arguments are refused, if they are; `words` are these arguments.
    fn reason(&self, alloc: Global, words: &[&str]) -> Result<Option<String>, AllocError> {
        match self {
            Arguments::Texts(_) => refusal_reason(alloc, words),
            Arguments::NotText => Ok(Some(String::from_str(
                alloc,
                "a word is not UTF-8, as all words have to be, also the names of files",
            )?)),
        }
    }
}

/// The strings as words.
fn words_of<'a>(alloc: Global, texts: &'a [String]) -> Result<Vec<&'a str>, AllocError> {
    texts.iter().map(|text| text.as_str()).collect(alloc)
}

/// Answers the arguments over the system's files and these streams, and returns the exit status. If the words are
/// refused, `err` gains the reason.
fn answer<R: FileSystem + AllocGlobal + Threads + Wait + Sync, I: Read, O: Write, E: Write>(
    rt: &R,
    arguments: &Arguments,
    input: &mut I,
    out: &mut O,
    err: &mut E,
) -> Result<u8, AllocError> {
    let words = words_of(rt.alloc(), arguments.texts())?;
    // Before the answer: without memory for the reason there is no answer either.
    let reason = arguments.reason(rt.alloc(), words.as_slice())?;
    let mut files = Disk::new(rt);
    let status = serve(rt, words.as_slice(), &mut files, input, out, err);
    if let (2, Some(reason)) = (status, &reason) {
        let _ = writeln!(err, "wmlab: {reason}");
    }
    Ok(status)
}

/// The same for arguments that may not have been read: status 3, and `out of memory` on `err`, if an allocation for them
/// fails.
fn run<R: FileSystem + AllocGlobal + Threads + Wait + Sync, I: Read, O: Write, E: Write>(
    rt: &R,
    arguments: Result<Arguments, AllocError>,
    input: &mut I,
    out: &mut O,
    err: &mut E,
) -> u8 {
    let answered = match &arguments {
        Ok(arguments) => answer(rt, arguments, input, out, err),
        Err(_) => Err(AllocError),
    };
    match answered {
        Ok(status) => status,
        Err(_) => {
            let _ = writeln!(err, "out of memory");
            3
        }
    }
}

/// Makes the C library keep freed memory for later use. It returns freed memory to the system if more than twice the
/// largest freed block is at the end of its heap; then each round of `run` and each call with many locals would request
/// it from the system again. The block is freed unused, so it takes no memory.
fn keep_freed_memory(alloc: Global) {
    let _block: Result<Vec<u8>, AllocError> = Vec::with_capacity(alloc, 1 << 24);
}

fn main(rt: HostRuntime) -> ExitCode {
    keep_freed_memory(rt.alloc());
    let status = run(
        &rt,
        Arguments::of_process(&rt),
        &mut rt.stdin(),
        &mut rt.stdout(),
        &mut rt.stderr(),
    );
    ExitCode::from(status)
}
