// replay [FILE [MARK]]: makes each call of a script on one station that starts fresh, and writes the answers. FILE is the script, under a name that is UTF-8; it is on standard input where FILE is `-` or left out. The status is 0 where the whole script was read, answered and written, 141 where the reader of the answers went away, and 1 after any other failure, which a line on standard error names. Where there is a second argument, a line on descriptor 3 says of a whole script that it is, and every failure leaves that line out.
#![tactic(auto)]

use std::alloc::AllocGlobal;
use std::env::{Env, FillError};
use std::fs::File;
use std::io::{Eprint, Error, ErrorKind, Print, Read};
use std::process::ExitCode;
use std::rt::Files;

// Where the mark of a whole run goes.
const MARK: i32 = 3;

// The status of a program whose reader went away, as a shell gives it.
const READER_GONE: u8 = 141;

// The system's numbers for a name that is too long, and for one that is no text.
const TOO_LONG: i32 = 36;

const NO_TEXT: i32 = 84;

// What ended a run before the end of its script.
#[derive(Drop)]
enum Failure {
    Read(Error),
    Write(Error),
}

// Answers a script, and whether all of it was read, answered and written; a read or a write that fails ends the run. While whole lines wait for room in the output buffer nothing can be read. A proved loop has to end, and nothing says that a script does: the turns are counted up to a number that no run reaches.
fn replay(script: &mut impl Read, answers: &impl Print) -> Result<bool, Failure> {
    let mut buffer = [0; 65536];
    let mut output = [0; 65536];
    let mut state = replay_feed::start();
    for _ in 0..u64::MAX {
        if !state.going {
            break;
        }
        let at = replay_feed::read_offset(state, &buffer);
        let count = script.read(&mut buffer[at..]).map_err(Failure::Read)?;
        state = replay_feed::turn(state, &mut buffer, count, &mut output);
        answers
            .write_all(&output[..state.filled])
            .map_err(Failure::Write)?;
    }
    Ok(state.whole)
}

// Says what failed and why: in the system's words, without their number.
fn fail<R: Eprint + AllocGlobal>(rt: &R, what: &str, why: Error) -> ExitCode {
    let _ = match format!(in rt.alloc(); "{why}") {
        Ok(text) => match text.as_str().split_once(" (os error ") {
            Some((reason, _)) => eprintln!(rt; "{what}: {reason}"),
            None => eprintln!(rt; "{what}: {text}"),
        },
        Err(_) => eprintln!(rt; "{what}: {why}"),
    };
    ExitCode::FAILURE
}

// Runs a script under the name that a failure is told with, and sets the mark where it is asked for.
fn run<R: Env + Print + Eprint + AllocGlobal>(
    rt: &R,
    name: &str,
    script: &mut impl Read,
) -> ExitCode {
    match replay(script, rt) {
        Ok(true) => {
            if !matches!(rt.arg(2, &mut []), Err(FillError::NotPresent)) {
                io::write_all(MARK, b"answered\n");
            }
            ExitCode::SUCCESS
        }
        Ok(false) => ExitCode::FAILURE,
        Err(Failure::Read(why)) => fail(rt, name, why),
        Err(Failure::Write(why)) if why.kind() == ErrorKind::BrokenPipe => {
            ExitCode::from(READER_GONE)
        }
        Err(Failure::Write(why)) => fail(rt, "standard output", why),
    }
}

fn run_file<R: Files + Env + Print + Eprint + AllocGlobal>(rt: &R, path: &str) -> ExitCode {
    match File::open(rt, path) {
        Ok(mut file) => run(rt, path, &mut file),
        Err(why) => fail(rt, path, why),
    }
}

fn main(rt: HostRuntime) -> ExitCode {
    let mut name = [0; 4096];
    let length = match rt.arg(1, &mut name) {
        Ok(length) => length,
        Err(FillError::NotPresent) => return run(&rt, "standard input", &mut rt.stdin()),
        Err(FillError::TooLong) => return fail(&rt, "", Error::from_raw_os_error(TOO_LONG)),
    };
    match std::str::from_utf8(&name[..length]) {
        Ok("-") => run(&rt, "standard input", &mut rt.stdin()),
        Ok(path) => run_file(&rt, path),
        Err(_) => {
            let _ = rt.stderr().write_all(&name[..length]);
            fail(&rt, "", Error::from_raw_os_error(NO_TEXT))
        }
    }
}
