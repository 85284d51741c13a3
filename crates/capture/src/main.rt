// Shows the captures that its arguments name, or the one on standard input.

#![tactic(auto)]

ghost use Rattle.std.specs.Prelude.{◌≤◌, length};

use std::io;
use std::rt::{Env, Files};

// The capture at the front of a buffer; nothing where there is none.
fn show_front(
    rt: &impl Print,
    n: usize,
    s: &[u8],
    joined: &mut [u8],
    room: &mut [u8],
) -> io::Result<()>
    requires { n ≤ length s.now }
{
    if n == 0 {
        return Ok(());
    }
    show_capture::show(rt, &s[..n], joined, room)
}

// The inputs, one after another. `faults` is where what is no capture's fault is said.
fn run<R: Env + Files + Input + Print>(
    rt: &R,
    faults: &impl Print,
    s: &mut [u8],
    joined: &mut [u8],
    room: &mut [u8],
) -> io::Result<()> {
    let count = capture_input::inputs(rt);
    for i in 0..count {
        let n = capture_input::read_input(rt, faults, i, s)?;
        show_front(rt, n, s, joined, room)?;
    }
    Ok(())
}

// Room for long content and for the normal form, neither longer than the capture; a letter of two
// bytes has up to three in UTF-8.
fn main(rt: HostRuntime) -> io::Result<()> {
    let mut s = [0u8; 262144];
    let mut joined = [0u8; 262144];
    let mut room = [0u8; 393216];
    run(&rt, &rt.stderr(), &mut s, &mut joined, &mut room)
}
