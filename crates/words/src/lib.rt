// What the programs print with, and fill a buffer from an input with.

#![tactic(auto)]

ghost use Rattle.std.specs.Prelude.{◌≡◌, ◌≤◌, ◌<◌, ◌+◌, ◌*◌, ◌++◌, false, length, take, IfOk};
ghost use Rattle.std.specs.Fmt.{digit_glyph};
ghost use Rattle.std.specs.Str.{IsAscii};
ghost use Rattle.words.specs.Hex.{two_digits, hex_text};

use std::io::Read;
use std::{fmt, io, str};

// One digit.
fn digit(n: u8) -> u8
    requires { n < 16 }
    ensures { result ≡ digit_glyph false n }
{
    if n < 10 { b'0' + n } else { b'a' + (n - 10) }
}

// The two digits of a byte, at a place of a text: the place behind them.
#[tactic(auto, using(crate::proofs::Spelled::two_put))]
fn put(text: &mut [u8], at: usize, b: u8) -> usize
    requires { at + 2 ≤ length text.old }
    ensures within { result ≤ at + 2 }
    ensures digits { take result text.new ≡ take at text.old ++ two_digits b }
{
    let low = at + 1;
    text[at] = digit(b / 16);
    text[low] = digit(b % 16);
    low + 1
}

// Two digits for each byte, at the front of a text that has room for them: how many stand there.
fn spell(s: &[u8], text: &mut [u8]) -> usize
    requires { 2 * length s.now ≤ length text.old }
    ensures within { result ≤ length text.new }
    ensures digits { take result text.new ≡ hex_text s.now }
    ensures ascii { IsAscii (hex_text s.now) }
{
    let mut at = 0;
    for b in s {
        at = put(text, at, *b);
    }
    at
}

// Bytes as hexadecimal digits, two for each.
#[derive(Clone, Copy)]
pub struct Hex<'a>(pub &'a [u8]);

impl fmt::Display for Hex<'_> {
    ghost use Rattle.std.specs.Prelude.{Some};

    ghost output = { λ h. Some (hex_text h.0.now) };

    // A part at a time: a `write!` for each byte takes several times as long.
    fn fmt<W: fmt::Write>(&self, f: &mut fmt::Formatter<W>) -> fmt::Result {
        let mut text = [0u8; 64];
        for part in self.0.chunks(32) {
            let n = spell(part, &mut text);
            let Ok(letters) = str::from_utf8(&text[..n]) else {
                unreachable!();
            };
            f.write_str(letters)?;
        }
        Ok(())
    }
}

// The digits of at most 2,048 bytes, in one write.
fn write_part(rt: &impl Print, s: &[u8]) -> io::Result<()> {
    let mut text = [0u8; 4096];
    let n = spell(&s[..s.len().min(2048)], &mut text);
    rt.write_all(&text[..n])
}

// Long bytes as hexadecimal digits: `print!` takes each letter by itself, which is several times as
// long.
pub fn write_hex(rt: &impl Print, s: &[u8]) -> io::Result<()> {
    for part in s.chunks(2048) {
        write_part(rt, part)?;
    }
    Ok(())
}

// Reads until the buffer is full or the input ends: how many bytes stand at its front. A read that
// fails is an error.
pub fn read_full(input: &mut impl Read, s: &mut [u8]) -> io::Result<usize>
    ensures { IfOk result (λ n. n ≤ length s.new) }
{
    let mut done = 0;
    while done < s.len() {
        let n = input.read(&mut s[done..])?;
        if n == 0 {
            break;
        }
        done += n;
    }
    Ok(done)
}
