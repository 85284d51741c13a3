// How a program uses the codec: it writes a limit, reads it back, and asks whether two rows hold the
// same. A row has one column here.

#![tactic(auto)]

ghost use Rattle.std.specs.Prelude.{◌≤◌, length};

use morelquilt::{ByteLen, Column, Cursor, Found, Scalar, TypeId, UShortLen, Value};
use std::io;

// Prints the limit that a value holds.
fn print(rt: &impl Print, found: Found) -> io::Result<()> {
    if let Found::Scalar(Scalar::I32(limit)) = found {
        println!(rt; "{limit}")?;
    }
    Ok(())
}

// Reads a row and takes its value.
fn read_limit(rt: &impl Print, c: Column, row: &[u8]) -> io::Result<()> {
    let Ok((first, _)) = morelquilt::read_row(&[c], row, Cursor { at: 0 }, &mut []) else {
        return Ok(());
    };
    let Ok((limit, _)) = first.value(c, row) else {
        return Ok(());
    };
    print(rt, limit)
}

// A limit at the front of the room: how many bytes it has, none where it is refused.
fn write_limit(c: Column, limit: i32, room: &mut [u8]) -> usize
    ensures { result ≤ length room.old }
{
    match morelquilt::write_value(c, Value::Scalar(Scalar::I32(limit)), &[], room) {
        Ok(n) => n,
        Err(_) => 0,
    }
}

// Writes a limit, and reads what was written.
fn there_and_back(rt: &impl Print, c: Column, limit: i32) -> io::Result<()> {
    let mut room = [0u8; 16];
    let n = write_limit(c, limit, &mut room);
    read_limit(rt, c, &room[..n])
}

// The row's normal form at the front of the room: how many bytes it has, none where it is refused.
fn form(c: Column, row: &[u8], room: &mut [u8]) -> usize
    ensures { result ≤ length room.old }
{
    match morelquilt::normal_row(&[c], row, Cursor { at: 0 }, room) {
        Ok((n, _)) => n,
        Err(_) => 0,
    }
}

// Whether two rows hold the same: their normal forms are the same bytes.
fn same(c: Column, one: &[u8], other: &[u8]) -> bool {
    let mut a = [0u8; 64];
    let mut b = [0u8; 64];
    let n = form(c, one, &mut a);
    let m = form(c, other, &mut b);
    a[..n] == b[..m]
}

fn main(rt: HostRuntime) -> io::Result<()> {
    there_and_back(&rt, morelquilt::plain(TypeId::Byte(ByteLen::Intn), 4), -2)?;
    // The bytes AA BB CC, long content of unknown length: in two chunks, and in one.
    let two = b"\xFE\xFF\xFF\xFF\xFF\xFF\xFF\xFF\x01\0\0\0\xAA\x02\0\0\0\xBB\xCC\0\0\0\0";
    let one = b"\xFE\xFF\xFF\xFF\xFF\xFF\xFF\xFF\x03\0\0\0\xAA\xBB\xCC\0\0\0\0";
    let long = morelquilt::plain(TypeId::UShort(UShortLen::BigVarBin), 65535);
    if same(long, two, one) {
        println!(&rt; "the same")?;
    }
    Ok(())
}
