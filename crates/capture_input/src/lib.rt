// What the program of captures reads: its words, and the bytes of a file. A fault that is not the
// capture's is a plain sentence, said by `faults`: on standard error.

#![tactic(auto)]

ghost use Rattle.std.specs.Prelude.{◌≤◌, length, IfOk};

use std::env::FillError;
use std::io::{Read, Write};
use std::rt::{Env, Files};
use std::{fs, io, str};

fn say_help(rt: &impl Print) -> io::Result<()> {
    rt.write_all(
        b"show [FILE..]: shows captures, each a column count in two bytes, low first, the\n",
    )?;
    rt.write_all(b"columns' descriptors, and a row; without a file the one on standard input.\n")
}

fn say_fault(faults: &impl Print, name: &[u8], text: &[u8]) -> io::Result<()> {
    faults.write_all(name)?;
    faults.write_all(text)
}

// What the system calls an error, without the error's number.
fn system_words(text: &str) -> &str {
    text.split_once(" (os error ")
        .map_or(text, |(before, _)| before)
}

// A file that could not be opened or read, and what the system says of it.
fn say_failed(faults: &impl Print, name: &[u8], e: io::Error) -> io::Result<()> {
    let mut text = [0u8; 256];
    let mut rest: &mut [u8] = &mut text;
    write!(rest, "{e}")?;
    let left = rest.len();
    let n = text.len().saturating_sub(left);
    let spelled = str::from_utf8(&text[..n]).unwrap_or("");
    say_fault(faults, name, b": ")?;
    say_fault(faults, system_words(spelled).as_bytes(), b"\n")
}

// The bytes that an input gives, at the front of the buffer: how many they are, none where there is
// nothing or too much, or where it cannot be read. What fills the buffer to its end is too large.
fn read(faults: &impl Print, name: &[u8], input: &mut impl Read, s: &mut [u8]) -> io::Result<usize>
    ensures { IfOk result (λ n. n ≤ length s.old) }
{
    let n = match words::read_full(input, s) {
        Ok(n) => n,
        Err(e) => {
            say_failed(faults, name, e)?;
            return Ok(0);
        }
    };
    if n == 0 {
        say_fault(faults, name, b": there is nothing in it\n")?;
        return Ok(0);
    }
    if s.len() <= n {
        say_fault(faults, name, b": it is too large, above 262143 bytes\n")?;
        return Ok(0);
    }
    Ok(n)
}

// Does the word begin as -h and --help do?
fn is_help(word: &[u8]) -> bool {
    matches!(word, [b'-', b'h' | b'-', ..])
}

// The name of a file stands above it where there are several.
fn say_name(rt: &impl Print, path: &[u8], several: bool) -> io::Result<()> {
    if several {
        rt.write_all(b"== ")?;
        rt.write_all(path)?;
        rt.write_all(b"\n")?;
    }
    Ok(())
}

// The bytes of a file. One whose name is not UTF-8 cannot be opened.
fn read_file(rt: &impl Files, faults: &impl Print, path: &[u8], s: &mut [u8]) -> io::Result<usize>
    ensures { IfOk result (λ n. n ≤ length s.old) }
{
    let Ok(name) = str::from_utf8(path) else {
        say_fault(faults, path, b": its name is not UTF-8\n")?;
        return Ok(0);
    };
    match fs::open(rt, name) {
        Ok(mut file) => read(faults, path, &mut file, s),
        Err(e) => {
            say_failed(faults, path, e)?;
            Ok(0)
        }
    }
}

// The bytes of the file that an argument names; none for one that asks for help.
fn read_argument<R: Env + Files + Print>(
    rt: &R,
    faults: &impl Print,
    i: usize,
    several: bool,
    s: &mut [u8],
) -> io::Result<usize>
    ensures { IfOk result (λ n. n ≤ length s.old) }
{
    let mut path = [0u8; 4096];
    let Ok(n) = rt.arg(i, &mut path) else {
        say_fault(faults, b"show", b": a name is too long\n")?;
        return Ok(0);
    };
    if is_help(&path[..n]) {
        say_help(rt)?;
        return Ok(0);
    }
    say_name(rt, &path[..n], several)?;
    read_file(rt, faults, &path[..n], s)
}

// Is there an argument of that number? 0 is the program's name.
fn is_given(rt: &impl Env, i: usize) -> bool {
    !matches!(rt.arg(i, &mut []), Err(FillError::NotPresent))
}

// How many inputs there are: a file for each argument behind the program's name, or standard input.
pub fn inputs(rt: &impl Env) -> usize {
    (1..usize::MAX)
        .take_while(|i| is_given(rt, *i))
        .count()
        .max(1)
}

// The bytes of an input, from 0 on, at the front of the buffer: how many they are, none where there
// is nothing to show.
pub fn read_input<R: Env + Files + Input + Print>(
    rt: &R,
    faults: &impl Print,
    i: usize,
    s: &mut [u8],
) -> io::Result<usize>
    ensures { IfOk result (λ n. n ≤ length s.old) }
{
    if !is_given(rt, 1) {
        return read(faults, b"standard input", &mut rt.reader(), s);
    }
    if !is_given(rt, i) {
        return Ok(0);
    }
    read_argument(rt, faults, i.saturating_add(1), is_given(rt, 2), s)
}
