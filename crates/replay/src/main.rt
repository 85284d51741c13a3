// Answers the frames of cases/PROTOCOL.md on standard input, a line for each.

#![tactic(auto)]

use std::io;
use std::io::Read;

// How many bytes the next frame has; none where the input has ended.
fn next_count(input: &mut impl Read) -> io::Result<Option<usize>> {
    let mut head = [0u8; 4];
    let got = words::read_full(input, &mut head)?;
    if got < 4 {
        return Ok(None);
    }
    Ok(Some(u32::from_le_bytes(head) as usize))
}

// Reads one frame and answers it; false where there is none, or a part of it is missing.
fn one(
    rt: &impl Print,
    input: &mut impl Read,
    frame: &mut [u8],
    room: &mut [u8],
) -> io::Result<bool> {
    let Some(n) = next_count(input)? else {
        return Ok(false);
    };
    if frame.len() < n {
        return Ok(false);
    }
    let got = words::read_full(input, &mut frame[..n])?;
    if got < n {
        return Ok(false);
    }
    replay_answer::answer(rt, &frame[..n], room)?;
    Ok(true)
}

// A proved loop has to end, and nothing says that an input does: it counts up to a number that
// no run comes to.
fn run(
    rt: &impl Print,
    input: &mut impl Read,
    frame: &mut [u8],
    room: &mut [u8],
) -> io::Result<()> {
    for _ in 0..u64::MAX {
        if !one(rt, input, frame, room)? {
            break;
        }
    }
    Ok(())
}

fn main(rt: HostRuntime) -> io::Result<()> {
    let mut frame = [0u8; 262144];
    let mut room = [0u8; 262144];
    run(&rt, &mut rt.stdin(), &mut frame, &mut room)
}
