// The calls for C and Rust: docs/PUBLIC.md, "The exports". What crosses is numbers, slices (a
// pointer, then a length), pointers to numbers and to arrays of them, and a struct of two numbers as
// the answer. Each export is one call of a library, whose contract it has; those of text turn the
// library's answer into the struct.

#![tactic(auto)]

ghost use Rattle.std.specs.Prelude.{◌≡◌};
ghost use lib.ListN.{length};
ghost use Rattle.format.specs.Answer.{gives, and_then, fitted, wrote, room_after};
ghost use Rattle.format.specs.Header.{write_header};
ghost use Rattle.format.specs.Prelogin.{write_prelogin};
ghost use Rattle.format.specs.Guid.{guid_order};
ghost use Rattle.format.specs.Text.{text_in, text_out};
ghost use Rattle.board_answer.specs.Told.{counted, place, after};
ghost use Rattle.board_packet.specs.Plain.{header_at, header_given, prelogin_given};
ghost use Rattle.board_number.specs.Plain.{number_at, guid_at};
ghost use Rattle.board_walk.specs.Plain.{walk_at, walk_step, heads, walk_after};
ghost use Rattle.board_column_read.specs.Plain.{record_at, spans_at};
ghost use Rattle.board_column.specs.Plain.{column_given};
ghost use Rattle.board_value.specs.Plain.{value_given, value_at, room_at};
ghost use Rattle.board_untyped.specs.Plain.{untyped_given};
ghost use Rattle.board_row.specs.Plain.{row_given};
ghost use Rattle.board_row_read.specs.Plain.{needs_at, row_at, row_room, row_values, normal_at, written, normal_room, ends};

use board_answer::Counted;

// The header at a place of the bytes: type, status, length, SPID, id, window.
#[unsafe(no_mangle)]
pub extern "C" fn morelquilt_header_read(bytes: &[u8], at: usize, fields: &mut [u16; 6]) -> Counted
    ensures answer { result ≡ counted (place (header_at bytes.now at)) }
    ensures room { fields.new ≡ after (header_at bytes.now at) fields.old }
{
    board_packet::header_read(bytes, at, fields)
}

// The header of six numbers, at the front of the room.
#[unsafe(no_mangle)]
pub extern "C" fn morelquilt_header_write(
    ty: u8,
    status: u8,
    length: u16,
    spid: u16,
    id: u8,
    window: u8,
    out: &mut [u8],
) -> Counted
    ensures answer { result ≡ counted (wrote (fitted (and_then (header_given ty status length spid id window) write_header) (lib.ListN.length out.old))) }
    ensures room { out.new ≡ room_after (fitted (and_then (header_given ty status length spid id window) write_header) (lib.ListN.length out.old)) out.old }
{
    board_packet::header_write(ty, status, length, spid, id, window, out)
}

// The prelogin message of plain numbers, at the front of the room.
#[unsafe(no_mangle)]
pub extern "C" fn morelquilt_prelogin_write(
    version: u32,
    sub_build: u16,
    encryption: u8,
    thread_id: u32,
    mars: u8,
    fed_auth: u8,
    out: &mut [u8],
) -> Counted
    ensures answer { result ≡ counted (wrote (fitted (and_then (prelogin_given version sub_build encryption thread_id mars fed_auth) write_prelogin) (length out.old))) }
    ensures room { out.new ≡ room_after (fitted (and_then (prelogin_given version sub_build encryption thread_id mars fed_auth) write_prelogin) (length out.old)) out.old }
{
    board_packet::prelogin_write(
        version, sub_build, encryption, thread_id, mars, fed_auth, out,
    )
}

// The number of a width at a place of the bytes, high byte first or low byte first.
#[unsafe(no_mangle)]
pub extern "C" fn morelquilt_number_read(
    bytes: &[u8],
    at: usize,
    width: u8,
    high: u8,
    to: &mut u64,
) -> Counted
    ensures answer { result ≡ counted (place (number_at width high bytes.now at)) }
    ensures room { to.new ≡ after (number_at width high bytes.now at) to.old }
{
    board_number::number_read(bytes, at, width, high, to)
}

// The GUID at a place of the bytes: its sixteen bytes in text order.
#[unsafe(no_mangle)]
pub extern "C" fn morelquilt_guid_read(bytes: &[u8], at: usize, text: &mut [u8; 16]) -> Counted
    ensures answer { result ≡ counted (place (guid_at bytes.now at)) }
    ensures room { text.new ≡ after (guid_at bytes.now at) text.old }
{
    board_number::guid_read(bytes, at, text)
}

// The GUID of sixteen bytes in text order, in wire order at the front of the room.
#[unsafe(no_mangle)]
pub extern "C" fn morelquilt_guid_write(text: &[u8; 16], out: &mut [u8]) -> Counted
    ensures answer { result ≡ counted (wrote (fitted (gives (guid_order text.now)) (length out.old))) }
    ensures room { out.new ≡ room_after (fitted (gives (guid_order text.now)) (length out.old)) out.old }
{
    board_number::guid_write(text, out)
}

// The walk behind the eight bytes at a place of the bytes: at, sum, known, total, text, ended.
#[unsafe(no_mangle)]
pub extern "C" fn morelquilt_walk_open(
    bytes: &[u8],
    at: usize,
    text: u8,
    walk: &mut [u64; 6],
) -> Counted
    ensures answer { result ≡ counted (place (walk_at text bytes.now at)) }
    ensures room { walk.new ≡ after (walk_at text bytes.now at) walk.old }
{
    board_walk::walk_open(bytes, at, text, walk)
}

// As many chunk heads as are allowed, or up to the last zero.
#[unsafe(no_mangle)]
pub extern "C" fn morelquilt_walk_step(bytes: &[u8], allowed: u64, walk: &mut [u64; 6]) -> Counted
    ensures answer { result ≡ counted (heads (walk_step allowed bytes.now walk.old)) }
    ensures room { walk.new ≡ walk_after (walk_step allowed bytes.now walk.old) walk.old }
{
    board_walk::walk_step(bytes, allowed, walk)
}

// The descriptor at a place of the bytes: its record, and where its names stand.
#[unsafe(no_mangle)]
pub extern "C" fn morelquilt_column_read(
    bytes: &[u8],
    at: usize,
    index: u16,
    column: &mut [u8; 16],
    names: &mut [u64; 6],
) -> Counted
    ensures answer { result ≡ counted (place (record_at index bytes.now at)) }
    ensures column { column.new ≡ after (record_at index bytes.now at) column.old }
    ensures names { names.new ≡ after (spans_at bytes.now at) names.old }
{
    board_column_read::column_read(bytes, at, index, column, names)
}

// How many bytes the descriptor takes.
#[unsafe(no_mangle)]
pub extern "C" fn morelquilt_column_size(
    column: &[u8; 16],
    names: &[u64; 6],
    buffer: &[u8],
) -> Counted
    ensures { result ≡ counted (wrote (column_given column.now names.now buffer.now)) }
{
    board_column::column_size(column, names, buffer)
}

// The descriptor, at the front of the room.
#[unsafe(no_mangle)]
pub extern "C" fn morelquilt_column_write(
    column: &[u8; 16],
    names: &[u64; 6],
    buffer: &[u8],
    out: &mut [u8],
) -> Counted
    ensures answer { result ≡ counted (wrote (fitted (column_given column.now names.now buffer.now) (length out.old))) }
    ensures room { out.new ≡ room_after (fitted (column_given column.now names.now buffer.now) (length out.old)) out.old }
{
    board_column::column_write(column, names, buffer, out)
}

// How many bytes the value takes under the column.
#[unsafe(no_mangle)]
pub extern "C" fn morelquilt_value_size(
    column: &[u8; 16],
    value: &[u64; 3],
    buffer: &[u8],
) -> Counted
    ensures { result ≡ counted (wrote (value_given column.now value.now buffer.now)) }
{
    board_value::value_size(column, value, buffer)
}

// The value under the column, at the front of the room.
#[unsafe(no_mangle)]
pub extern "C" fn morelquilt_value_write(
    column: &[u8; 16],
    value: &[u64; 3],
    buffer: &[u8],
    out: &mut [u8],
) -> Counted
    ensures answer { result ≡ counted (wrote (fitted (value_given column.now value.now buffer.now) (length out.old))) }
    ensures room { out.new ≡ room_after (fitted (value_given column.now value.now buffer.now) (length out.old)) out.old }
{
    board_value::value_write(column, value, buffer, out)
}

// The value at a place of the row; PLP content is joined at the front of the room.
#[unsafe(no_mangle)]
pub extern "C" fn morelquilt_value_read(
    column: &[u8; 16],
    row: &[u8],
    at: usize,
    room: &mut [u8],
    value: &mut [u64; 3],
) -> Counted
    ensures answer { result ≡ counted (place (value_at column.now row.now at room.old)) }
    ensures room { room.new ≡ room_at column.now row.now at room.old }
    ensures value { value.new ≡ after (value_at column.now row.now at room.old) value.old }
{
    board_value::value_read(column, row, at, room, value)
}

// How many bytes the value takes with its own descriptor in front.
#[unsafe(no_mangle)]
pub extern "C" fn morelquilt_untyped_size(value: &[u64; 3], buffer: &[u8]) -> Counted
    ensures { result ≡ counted (wrote (untyped_given value.now buffer.now)) }
{
    board_untyped::untyped_size(value, buffer)
}

// The value with its own descriptor in front, at the front of the room.
#[unsafe(no_mangle)]
pub extern "C" fn morelquilt_untyped_write(
    value: &[u64; 3],
    buffer: &[u8],
    out: &mut [u8],
) -> Counted
    ensures answer { result ≡ counted (wrote (fitted (untyped_given value.now buffer.now) (length out.old))) }
    ensures room { out.new ≡ room_after (fitted (untyped_given value.now buffer.now) (length out.old)) out.old }
{
    board_untyped::untyped_write(value, buffer, out)
}

// How many bytes the row takes.
#[unsafe(no_mangle)]
pub extern "C" fn morelquilt_row_size(table: &[u8], values: &[u64], buffer: &[u8]) -> Counted
    ensures { result ≡ counted (wrote (row_given table.now values.now buffer.now)) }
{
    board_row::row_size(table, values, buffer)
}

// The row, at the front of the room.
#[unsafe(no_mangle)]
pub extern "C" fn morelquilt_row_write(
    table: &[u8],
    values: &[u64],
    buffer: &[u8],
    out: &mut [u8],
) -> Counted
    ensures answer { result ≡ counted (wrote (fitted (row_given table.now values.now buffer.now) (length out.old))) }
    ensures room { out.new ≡ room_after (fitted (row_given table.now values.now buffer.now) (length out.old)) out.old }
{
    board_row::row_write(table, values, buffer, out)
}

// What the row at a place needs: the bytes of room that reading takes, the bytes of the normal form.
#[unsafe(no_mangle)]
pub extern "C" fn morelquilt_row_needs(
    table: &[u8],
    row: &[u8],
    at: usize,
    needs: &mut [u64; 2],
) -> Counted
    ensures answer { result ≡ counted (place (needs_at table.now row.now at)) }
    ensures room { needs.new ≡ after (needs_at table.now row.now at) needs.old }
{
    board_row_read::row_needs(table, row, at, needs)
}

// The row at a place: three numbers for each value, at the front of the list; PLP content is joined
// in the room.
#[unsafe(no_mangle)]
pub extern "C" fn morelquilt_row_read(
    table: &[u8],
    row: &[u8],
    at: usize,
    room: &mut [u8],
    values: &mut [u64],
) -> Counted
    ensures answer { result ≡ counted (place (row_at table.now row.now at room.old values.old)) }
    ensures room { room.new ≡ row_room table.now row.now at room.old values.old }
    ensures values { values.new ≡ row_values table.now row.now at room.old values.old }
{
    board_row_read::row_read(table, row, at, room, values)
}

// The normal form of the row at a place, at the front of the room, and where the row ends.
#[unsafe(no_mangle)]
pub extern "C" fn morelquilt_row_normal(
    table: &[u8],
    row: &[u8],
    at: usize,
    out: &mut [u8],
    next: &mut u64,
) -> Counted
    ensures answer { result ≡ counted (written (normal_at table.now row.now at out.old)) }
    ensures room { out.new ≡ normal_room table.now row.now at out.old }
    ensures next { next.new ≡ ends (normal_at table.now row.now at out.old) next.old }
{
    board_row_read::row_normal(table, row, at, out, next)
}

// How many bytes UTF-8 takes in UTF-16LE.
#[unsafe(no_mangle)]
pub extern "C" fn morelquilt_utf16_size(text: &[u8]) -> Counted
    ensures { result ≡ counted (wrote (text_in text.now)) }
{
    board_answer::answer(text::utf16_size(text))
}

// UTF-8 as UTF-16LE, at the front of the room.
#[unsafe(no_mangle)]
pub extern "C" fn morelquilt_to_utf16(text: &[u8], out: &mut [u8]) -> Counted
    ensures answer { result ≡ counted (wrote (fitted (text_in text.now) (length out.old))) }
    ensures room { out.new ≡ room_after (fitted (text_in text.now) (length out.old)) out.old }
{
    board_answer::answer(text::to_utf16(text, out))
}

// How many bytes UTF-16LE takes in UTF-8.
#[unsafe(no_mangle)]
pub extern "C" fn morelquilt_utf8_size(units: &[u8]) -> Counted
    ensures { result ≡ counted (wrote (text_out units.now)) }
{
    board_answer::answer(text::utf8_size(units))
}

// UTF-16LE as UTF-8, at the front of the room.
#[unsafe(no_mangle)]
pub extern "C" fn morelquilt_to_utf8(units: &[u8], out: &mut [u8]) -> Counted
    ensures answer { result ≡ counted (wrote (fitted (text_out units.now) (length out.old))) }
    ensures room { out.new ≡ room_after (fitted (text_out units.now) (length out.old)) out.old }
{
    board_answer::answer(text::to_utf8(units, out))
}
