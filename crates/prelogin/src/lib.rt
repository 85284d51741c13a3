// The prelogin message, writing: MS-TDS, PRELOGIN.

#![tactic(auto)]

ghost use Rattle.std.specs.Prelude.{◌≡◌, ◌+◌, ◌≤◌, length};
ghost use Rattle.std.proofs.lemmas.List.Edits.{sets};
ghost use Rattle.format.specs.Answer.{fitted, wrote, room_after};
ghost use Rattle.format.specs.Prelogin.{write_prelogin};
ghost use Rattle.wire.specs.Told.{answer_told};
ghost use Rattle.prelogin.specs.Told.{prelogin_told, entry_bytes, table_bytes, data_bytes};

use wire::{Refusal, inner};

// ENCRYPT_OFF, ENCRYPT_ON, ENCRYPT_NOT_SUP and ENCRYPT_REQ.
#[derive(Clone, Copy, Debug, PartialEq, Eq)]
pub enum Encryption {
    Off = 0,
    On = 1,
    NotSupported = 2,
    Required = 3,
}

#[derive(Clone, Copy)]
pub struct Prelogin {
    pub version: u32,
    pub sub_build: u16,
    pub encryption: Encryption,
    pub thread_id: u32,
    pub mars: bool,
    pub fed_auth_required: bool,
}

// The places of the table's entries, five bytes each, and how many bytes the four options' data take
// that always stand there.
const SECOND: usize = 5;

const THIRD: usize = 2 * SECOND;

const FOURTH: usize = 3 * SECOND;

const FIFTH: usize = 4 * SECOND;

const DATA: usize = 12;
// Without FEDAUTHREQUIRED: the place of 0xFF, where the data start, and how long the message is.
const END: usize = FIFTH;

const START: usize = END + 1;

const SIZE: usize = START + DATA;
// With it: an entry more, and a byte of data, the last.
const FED_END: usize = FIFTH + SECOND;

const FED_START: usize = FED_END + 1;

const FED_LAST: usize = FED_START + DATA;

const FED_SIZE: usize = FED_LAST + 1;

// ENCRYPTION's byte.
impl From<Encryption> for u8 {
    ghost use Rattle.prelogin.specs.Told.{encryption_number};

    ghost from_gives = { λ e b. b ≡ encryption_number e };

    fn from(e: Encryption) -> u8 {
        e as u8
    }
}

// ENCRYPTION of its byte.
impl TryFrom<u8> for Encryption {
    ghost use Rattle.std.specs.Prelude.{ltb};
    ghost use Rattle.format.specs.Answer.{unknown, gives, refuse_if};
    ghost use Rattle.prelogin.specs.Told.{encryption_told};

    type Error = Refusal;

    ghost try_from_gives = { λ b r. encryption_told r ≡ refuse_if (ltb 3 b) unknown (gives b) };

    fn try_from(b: u8) -> Result<Encryption, Refusal> {
        match b {
            0 => Ok(Encryption::Off),
            1 => Ok(Encryption::On),
            2 => Ok(Encryption::NotSupported),
            3 => Ok(Encryption::Required),
            _ => Err(Refusal::Unknown),
        }
    }
}

// An entry of the table: an option's token, and where its data stand and how long they are.
fn put_entry(out: &mut [u8], at: usize, token: u8, offset: u64, count: u64)
    requires { at + 5 ≤ length out.old }
    ensures { out.new ≡ sets out.old at (entry_bytes token offset count) }
{
    inner::put_byte(out, at, token);
    inner::put_high(out, at + 1, offset, 2);
    inner::put_high(out, at + 3, count, 2);
}

// The entries of VERSION, ENCRYPTION, THREADID and MARS, whose data stand from start on.
fn put_table(out: &mut [u8], start: u64)
    requires { (start ≤ 65535) × (20 ≤ length out.old) }
    ensures { out.new ≡ sets out.old 0 (table_bytes start) }
{
    put_entry(out, 0, 0, start, 6);
    put_entry(out, SECOND, 1, start + 6, 1);
    put_entry(out, THIRD, 3, start + 7, 4);
    put_entry(out, FOURTH, 4, start + 11, 1);
}

// The data of the same four options, from at.
fn put_data(out: &mut [u8], at: usize, p: Prelogin)
    requires { at + 12 ≤ length out.old }
    ensures { out.new ≡ sets out.old at (data_bytes p) }
{
    inner::put_high(out, at, p.version as u64, 4);
    inner::put_high(out, at + 4, p.sub_build as u64, 2);
    inner::put_byte(out, at + 6, u8::from(p.encryption));
    inner::put_high(out, at + 7, p.thread_id as u64, 4);
    inner::put_byte(out, at + 11, u8::from(p.mars));
}

// The message with FEDAUTHREQUIRED, and without.
pub fn write_prelogin(p: Prelogin, out: &mut [u8]) -> Result<usize, Refusal>
    ensures answer { answer_told result ≡ wrote (fitted (write_prelogin (prelogin_told p)) (length out.old)) }
    ensures room { out.new ≡ room_after (fitted (write_prelogin (prelogin_told p)) (length out.old)) out.old }
{
    if p.fed_auth_required {
        if out.len() < FED_SIZE {
            return Err(Refusal::Room);
        }
        put_table(out, FED_START as u64);
        put_entry(out, FIFTH, 6, FED_LAST as u64, 1);
        inner::put_byte(out, FED_END, 0xFF);
        put_data(out, FED_START, p);
        inner::put_byte(out, FED_LAST, 1);
        return Ok(FED_SIZE);
    }
    if out.len() < SIZE {
        return Err(Refusal::Room);
    }
    put_table(out, START as u64);
    inner::put_byte(out, END, 0xFF);
    put_data(out, START, p);
    Ok(SIZE)
}
