// The packet header both ways and the prelogin message, as plain numbers.

#![tactic(auto)]

ghost use Rattle.std.specs.Prelude.{◌≡◌, false, ◌+◌, ◌≤◌};
ghost use lib.ListN.{length};
ghost use Rattle.std.proofs.lemmas.List.Edits.{sets};
ghost use Rattle.lists.specs.Pick.{pick};
ghost use Rattle.format.specs.Answer.{further, map_read, and_then, fitted, wrote, room_after};
ghost use Rattle.format.specs.Header.{packet_types, packet_statuses, listed, header_of, read_header, header_bytes, write_header};
ghost use Rattle.format.specs.Prelogin.{write_prelogin};
ghost use Rattle.board_answer.specs.Told.{counted, place, after};
ghost use Rattle.board_packet.specs.Told.{message_told};
ghost use Rattle.board_packet.specs.Plain.{header_numbers, header_at, header_made, header_given, prelogin_given};

use board_answer::Counted;
use prelogin::{Encryption, Prelogin};
use wire::Refusal;

// Is it the number of a packet type?
fn is_type(b: u8) -> bool
    ensures { result ≡ listed packet_types b }
{
    matches!(b, 1 | 2 | 3 | 4 | 6 | 7 | 8 | 14 | 16 | 17 | 18)
}

// Is it the number of a packet status?
fn is_status(b: u8) -> bool
    ensures { result ≡ listed packet_statuses b }
{
    matches!(b, 0 | 1 | 3 | 8 | 16)
}

// Are both known?
fn is_known(ty: u8, status: u8) -> bool
    ensures { result ≡ pick (listed packet_types ty) (listed packet_statuses status) false }
{
    is_type(ty) && is_status(status)
}

// The six numbers of the eight bytes that the rest begins with.
fn numbers(rest: &[u8]) -> [u16; 6]
    requires { 8 ≤ length rest.now }
    ensures { result ≡ header_numbers (header_of rest.now) }
{
    let length = wire::inner::high_at(rest, 2, 2) as u16;
    let spid = wire::inner::high_at(rest, 4, 2) as u16;
    [
        u16::from(rest[0]),
        u16::from(rest[1]),
        length,
        spid,
        u16::from(rest[6]),
        u16::from(rest[7]),
    ]
}

// The header that the rest of the bytes, from `at` on, begins with.
fn header_in(rest: &[u8], at: usize, fields: &mut [u16; 6]) -> Counted
    requires { at + length rest.now ≤ 18446744073709551615 }
    ensures answer { result ≡ counted (place (map_read header_numbers (further at (read_header rest.now)))) }
    ensures room { fields.new ≡ after (map_read header_numbers (further at (read_header rest.now))) fields.old }
{
    if rest.len() < 8 {
        return board_answer::refused(Refusal::Missing);
    }
    if !is_known(rest[0], rest[1]) {
        return board_answer::unknown();
    }
    *fields = numbers(rest);
    board_answer::at(at + 8)
}

// The header at a place of the bytes: its six numbers, and the next place.
pub fn header_read(bytes: &[u8], at: usize, fields: &mut [u16; 6]) -> Counted
    ensures answer { result ≡ counted (place (header_at bytes.now at)) }
    ensures room { fields.new ≡ after (header_at bytes.now at) fields.old }
{
    if bytes.len() < at {
        return board_answer::refused(Refusal::Missing);
    }
    header_in(&bytes[at..], at, fields)
}

// The eight bytes of six numbers, where there is room for them.
fn put_header(out: &mut [u8], ty: u8, status: u8, length: u16, spid: u16, id: u8, window: u8)
    requires { 8 ≤ lib.ListN.length out.old }
    ensures { out.new ≡ sets out.old 0 (header_bytes (header_made ty status length spid id window)) }
{
    out[0] = ty;
    out[1] = status;
    wire::inner::put_high(out, 2, length as u64, 2);
    wire::inner::put_high(out, 4, spid as u64, 2);
    out[6] = id;
    out[7] = window;
}

// The header of six numbers, at the front of the room.
pub fn header_write(
    ty: u8,
    status: u8,
    length: u16,
    spid: u16,
    id: u8,
    window: u8,
    out: &mut [u8],
) -> Counted
    ensures answer { result ≡ counted (wrote (fitted (and_then (header_given ty status length spid id window) write_header) (lib.ListN.length out.old))) }
    ensures room { out.new ≡ room_after (fitted (and_then (header_given ty status length spid id window) write_header) (lib.ListN.length out.old)) out.old }
{
    if !is_known(ty, status) {
        return board_answer::unknown();
    }
    if out.len() < 8 {
        return board_answer::refused(Refusal::Room);
    }
    put_header(out, ty, status, length, spid, id, window);
    board_answer::at(8)
}

// The prelogin message of plain numbers.
fn message(
    version: u32,
    sub_build: u16,
    encryption: u8,
    thread_id: u32,
    mars: u8,
    fed_auth: u8,
) -> Result<Prelogin, Refusal>
    ensures { message_told result ≡ prelogin_given version sub_build encryption thread_id mars fed_auth }
{
    Ok(Prelogin {
        version,
        sub_build,
        encryption: Encryption::try_from(encryption)?,
        thread_id,
        mars: board_answer::flag(u64::from(mars))?,
        fed_auth_required: board_answer::flag(u64::from(fed_auth))?,
    })
}

// The message, at the front of the room.
pub fn prelogin_write(
    version: u32,
    sub_build: u16,
    encryption: u8,
    thread_id: u32,
    mars: u8,
    fed_auth: u8,
    out: &mut [u8],
) -> Counted
    ensures answer { result ≡ counted (wrote (fitted (and_then (prelogin_given version sub_build encryption thread_id mars fed_auth) write_prelogin) (length out.old))) }
    ensures room { out.new ≡ room_after (fitted (and_then (prelogin_given version sub_build encryption thread_id mars fed_auth) write_prelogin) (length out.old)) out.old }
{
    match message(version, sub_build, encryption, thread_id, mars, fed_auth) {
        Ok(p) => board_answer::answer(prelogin::write_prelogin(p, out)),
        Err(e) => board_answer::refused(e),
    }
}
