// The cases of files, one a line, printed with ` = ` and their results behind them. `replay`, `replay_file` and `replay_text` print to what the caller gives; what
// they take to print a result with is not handed that, and has its own. The three called unbuffered, by which the programs replay their stored cases, print to
// standard output piece by piece (`output::Unbuffered`), and hand that on.
use crate::STDOUT_FILENO;
use crate::lines::{Lines, read};
use crate::output::Unbuffered;
use std::env::FillError;
use std::io;
use std::io::Eprint;
use std::rt::{Env, Files};

// Each line of a text, with ` = ` and what print_rest puts behind it. Where that or a part before it fails, the rest of the case is lost, and the next is tried.
fn print_cases<R: Print, F: Fn(&[u8]) -> io::Result<()>>(rt: &R, text: &[u8], print_rest: F)
    requires { F.IsAlwaysCallable print_rest }
{
    for line in Lines(text) {
        let _ = print_case(rt, line, &print_rest);
    }
}

fn print_case<R: Print, F: Fn(&[u8]) -> io::Result<()>>(
    rt: &R,
    line: &[u8],
    print_rest: F,
) -> io::Result<()>
    requires { F.IsAlwaysCallable print_rest }
{
    rt.write_all(line)?;
    print!(rt; " = ")?;
    print_rest(line)
}

// Hands on each argument, the path of a file. One that is too long names no file. `env::args` would refuse them all where one is no UTF-8.
fn each_path<R: Env, F: Fn(&[u8])>(rt: &R, replay_file: F)
    requires { F.IsAlwaysCallable replay_file }
{
    for i in 1..usize::MAX {
        let mut path = [0; 4096];
        match rt.arg(i, &mut path) {
            Ok(n) => replay_file(&path[..n]),
            Err(FillError::TooLong) => replay_file(b""),
            Err(FillError::NotPresent) => return,
        }
    }
}

// The lines of a text. What can't be printed of a case is lost, and the next is tried.
pub fn replay_text<R: Print, F: Fn(&[u8]) -> io::Result<()>>(rt: &R, text: &[u8], print_result: F)
    requires { F.IsAlwaysCallable print_result }
{
    print_cases(rt, text, |line| {
        print_result(line)?;
        println!(rt; "")
    });
}

// The lines of a file, up to 65,536 bytes of it.
pub fn replay_file<R: Files + Print + Eprint, F: Fn(&[u8]) -> io::Result<()>>(
    rt: &R,
    path: &[u8],
    print_result: F,
)
    requires { F.IsAlwaysCallable print_result }
{
    let mut text = [0; 65536];
    let n = read(rt, path, &mut text);
    replay_text(rt, &text[..n], print_result);
}

// The files that the arguments name.
pub fn replay<R: Env + Files + Print + Eprint, F: Fn(&[u8]) -> io::Result<()>>(
    rt: &R,
    print_result: F,
)
    requires { F.IsAlwaysCallable print_result }
{
    each_path(rt, |path| {
        replay_file(rt, path, |line| print_result(line));
    });
}

// The lines of a text, to standard output. What can't be written of a case is lost, and the rest of it and the next are tried. A line that print_result refuses is
// no case.
pub fn replay_text_unbuffered<F: Fn(&Unbuffered, &[u8]) -> io::Result<()>>(
    text: &[u8],
    print_result: F,
)
    requires { F.IsAlwaysCallable print_result }
{
    let out = Unbuffered(STDOUT_FILENO);
    print_cases(&out, text, |line| match print_result(&out, line) {
        Ok(()) => println!(out; ""),
        Err(_) => print!(out; "no case\n"),
    });
}

// The lines of a file, up to 65,536 bytes of it, to standard output.
pub fn replay_file_unbuffered<R: Files + Eprint, F: Fn(&Unbuffered, &[u8]) -> io::Result<()>>(
    rt: &R,
    path: &[u8],
    print_result: F,
)
    requires { F.IsAlwaysCallable print_result }
{
    let mut text = [0; 65536];
    let n = read(rt, path, &mut text);
    replay_text_unbuffered(&text[..n], print_result);
}

// The files that the arguments name, to standard output.
pub fn replay_unbuffered<R: Env + Files + Eprint, F: Fn(&Unbuffered, &[u8]) -> io::Result<()>>(
    rt: &R,
    print_result: F,
)
    requires { F.IsAlwaysCallable print_result }
{
    each_path(rt, |path| {
        replay_file_unbuffered(rt, path, |out, line| print_result(out, line));
    });
}
