// A descriptor of one of the common forms, written from its record of 16 bytes. No column is made: the
// numbers go from place to place, each of a constant width.

#![tactic(auto)]

ghost use Rattle.std.specs.Prelude.{◌≡◌, true, ◌≤◌, length};
ghost use Rattle.record_write.specs.Told.{IsBare, IsDigits, IsText, AloneAt, ByteAt, DigitsAt, ShortAt, TextAt, Written};

use column_form::Form;

// No flag, no precision, no scale, nothing behind the length, and a length below the limit.
fn is_bare(r: &[u8], limit: u64) -> bool
    requires { 16 ≤ length r.now }
    ensures { result ≡ true → IsBare r.now limit }
{
    wire::inner::low_at(r, 1, 3) == 0
        && wire::inner::low_at(r, 8, 8) == 0
        && wire::inner::low_at(r, 4, 4) < limit
}

// The same, but that precision and scale are what they are.
fn is_digits(r: &[u8]) -> bool
    requires { 16 ≤ length r.now }
    ensures { result ≡ true → IsDigits r.now }
{
    r[1] == 0 && wire::inner::low_at(r, 8, 8) == 0 && wire::inner::low_at(r, 4, 4) < 256
}

// The flag of a collation and no other, no precision, no scale, nothing behind the collation.
fn is_text(r: &[u8]) -> bool
    requires { 16 ≤ length r.now }
    ensures { result ≡ true → IsText r.now }
{
    wire::inner::low_at(r, 1, 3) == 1
        && wire::inner::low_at(r, 13, 3) == 0
        && wire::inner::low_at(r, 4, 4) < 65536
}

// The type byte alone.
fn write_alone(r: &[u8], out: &mut [u8]) -> Option<usize>
    requires { AloneAt r.now }
    ensures { Written r.now out.old out.new result }
{
    if out.len() < 1 {
        return None;
    }
    if !is_bare(r, 1) {
        return None;
    }
    wire::inner::put_byte(out, 0, r[0]);
    Some(1)
}

// A length of one byte behind it.
fn write_byte(r: &[u8], out: &mut [u8]) -> Option<usize>
    requires { ByteAt r.now }
    ensures { Written r.now out.old out.new result }
{
    if out.len() < 2 {
        return None;
    }
    if !is_bare(r, 256) {
        return None;
    }
    wire::inner::put_byte(out, 0, r[0]);
    wire::inner::put_low(out, 1, wire::inner::low_at(r, 4, 4), 1);
    Some(2)
}

// The same, then precision and scale.
fn write_digits(r: &[u8], out: &mut [u8]) -> Option<usize>
    requires { DigitsAt r.now }
    ensures { Written r.now out.old out.new result }
{
    if out.len() < 4 {
        return None;
    }
    if !is_digits(r) {
        return None;
    }
    wire::inner::put_byte(out, 0, r[0]);
    wire::inner::put_low(out, 1, wire::inner::low_at(r, 4, 4), 1);
    wire::inner::put_byte(out, 2, r[2]);
    wire::inner::put_byte(out, 3, r[3]);
    Some(4)
}

// A length of two bytes.
fn write_short(r: &[u8], out: &mut [u8]) -> Option<usize>
    requires { ShortAt r.now }
    ensures { Written r.now out.old out.new result }
{
    if out.len() < 3 {
        return None;
    }
    if !is_bare(r, 65536) {
        return None;
    }
    wire::inner::put_byte(out, 0, r[0]);
    wire::inner::put_low(out, 1, wire::inner::low_at(r, 4, 4), 2);
    Some(3)
}

// The same, then a collation.
fn write_text(r: &[u8], out: &mut [u8]) -> Option<usize>
    requires { TextAt r.now }
    ensures { Written r.now out.old out.new result }
{
    if out.len() < 8 {
        return None;
    }
    if !is_text(r) {
        return None;
    }
    wire::inner::put_byte(out, 0, r[0]);
    wire::inner::put_low(out, 1, wire::inner::low_at(r, 4, 4), 2);
    wire::inner::put_low(out, 3, wire::inner::low_at(r, 8, 4), 4);
    wire::inner::put_byte(out, 7, r[12]);
    Some(8)
}

// The descriptor at the front of the room, and how many bytes it takes; or nothing, where the record has
// none of the forms, breaks the rule, or the room is too short.
pub fn write_record(r: &[u8], out: &mut [u8]) -> Option<usize>
    ensures { Written r.now out.old out.new result }
{
    if r.len() < 16 {
        return None;
    }
    match column_form::form_of(r[0]) {
        Form::Alone => write_alone(r, out),
        Form::Byte => write_byte(r, out),
        Form::Digits => write_digits(r, out),
        Form::Short => write_short(r, out),
        Form::Text => write_text(r, out),
        Form::Other => None,
    }
}
