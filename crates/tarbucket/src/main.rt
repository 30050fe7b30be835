// The program: reads a script from standard input and prints its tree, or why there is none. `shell` says what each read comes to and what is printed.
// Where the input can't be read there is no script, and nothing is printed but the failure, on standard error; so it is where the output can't be
// written.
#![tactic(auto)]

ghost use Rattle.std.specs.Prelude.{◌≡◌, ◌≤◌, IfOk};
ghost use Rattle.std.specs.Result.{result_ok};
ghost use Rattle.shell.specs.Input.{Moved};

use shell::Reading;
use std::io::{Eprint, Error, Read, Result, Write};

// A line on standard error: what failed, and why.
fn fail(rt: &impl Eprint, what: &str, error: &Error) {
    let _ = eprintln!(rt; "tarbucket: {what}: {error}");
}

// What a read answered: how many bytes it put into the chunk, or none where it failed, which is told.
fn count(rt: &impl Eprint, got: Result<usize>) -> Option<usize>
    requires { IfOk got (λ n. n ≤ 1024) }
    ensures moved { Moved 1024 result }
    ensures value { result ≡ result_ok got }
{
    match got {
        Ok(n) => Some(n),
        Err(error) => {
            fail(rt, "standard input", &error);
            None
        }
    }
}

fn main(rt: HostRuntime) {
    let mut chunk = [0u8; shell::CHUNK];
    let mut reading = Reading::start();
    while reading.is_open() {
        let got = count(&rt, rt.stdin().read(&mut chunk));
        reading.take(got, &chunk);
    }
    if reading.has_failed() {
        return;
    }
    let mut out = [0u8; listing::ROOM];
    let k = reading.answer(&mut out);
    if let Err(error) = rt.stdout().write_all(&out[..k]) {
        fail(&rt, "standard output", &error);
    }
}
