// A leaf that asks that the room has the form's size, for the crates of this repository.
ghost use Rattle.std.specs.Prelude.{◌≡◌, ◌+◌, length, Some};
ghost use Rattle.format.specs.Plp.{plp_bytes};
ghost use Rattle.plp_frame.specs.Frame.{FormRoom, middle};

use wire::marks;

// Unknown length, the chunk's length and the last zero, around what stands between them; in the room
// of empty content there is no chunk. Answers where the content ends; it starts at 12.
pub fn put_frame(out: &mut [u8]) -> usize
    requires { FormRoom out.old }
    ensures end { result ≡ 12 + length (middle out.old) }
    ensures room { out.new ≡ plp_bytes (Some (middle out.old)) }
{
    let last = out.len() - 4;
    wire::inner::put_low(out, last, 0, 4);
    wire::inner::put_low(out, 0, marks::PLP_UNKNOWN, 8);
    if last == 8 {
        return 12;
    }
    wire::inner::put_low(out, 8, (last - 12) as u64, 4);
    last
}
