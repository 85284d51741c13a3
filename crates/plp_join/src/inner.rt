// Leaves that ask something of their caller, for the crates of this repository: the value in the
// rest of an input, and the copy of chunks that were judged.
ghost use Rattle.std.specs.Prelude.{◌≡◌, ◌+◌, ◌≤◌, length};
ghost use Rattle.format.specs.Answer.{map_read, room_after_read};
ghost use Rattle.format.specs.Plp.{read_plp, plp_copied};
ghost use Rattle.plp_join.specs.Told.{joined_told, counted, join_in, IsContent, content_of, placed};

use wire::{Cursor, Refusal};

// The chunks of a value that was judged, joined at the front of out: a head's bytes are copied until
// a head is zero.
pub fn copy_chunks(rest: &[u8], text: bool, out: &mut [u8])
    requires { IsContent (read_plp text rest.now) × (length (content_of text rest.now) ≤ length out.old) }
    ensures { out.new ≡ placed (content_of text rest.now) out.old }
{
    let mut at: usize = 8;
    let mut o: usize = 0;
    loop {
        let n = wire::inner::low_at(rest, at, 4) as usize;
        if n == 0 {
            return;
        }
        let b = at + 4;
        wire::inner::paste(rest, b, b + n, out, o);
        at = b + n;
        o += n;
    }
}

// The value that the rest of the input, from `at` on, begins with.
pub fn join_in(
    rest: &[u8],
    at: usize,
    text: bool,
    out: &mut [u8],
) -> Result<(Option<usize>, Cursor), Refusal>
    requires { at + length rest.now ≤ 18446744073709551615 }
    ensures answer { joined_told result ≡ map_read counted (join_in text rest.now at (length out.old)) }
    ensures room { out.new ≡ room_after_read plp_copied (join_in text rest.now at (length out.old)) out.old }
{
    match crate::judge_plp(rest, text)? {
        None => Ok((None, Cursor { at: at + 8 })),
        Some((count, end)) => {
            if out.len() < count {
                return Err(Refusal::Room);
            }
            copy_chunks(rest, text, out);
            Ok((Some(count), Cursor { at: at + end }))
        },
    }
}
