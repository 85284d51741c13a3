// A leaf that asks that the content was judged and the room is there, for the crates of this
// repository.
ghost use Rattle.std.specs.Prelude.{◌≡◌, length, Some};
ghost use Rattle.format.specs.Plp.{read_plp, plp_bytes};
ghost use Rattle.plp_join.specs.Told.{IsContent, content_of};

// Unknown length, the chunks joined to one, and the last zero; empty content is the zero alone. It
// fills the room that it is lent to its last byte.
pub fn put_plp(rest: &[u8], text: bool, out: &mut [u8])
    requires { IsContent (read_plp text rest.now) × (length out.old ≡ length (plp_bytes (Some (content_of text rest.now)))) }
    ensures { out.new ≡ plp_bytes (Some (content_of text rest.now)) }
{
    let end = plp_frame::inner::put_frame(out);
    plp_join::inner::copy_chunks(rest, text, &mut out[12..end]);
}
