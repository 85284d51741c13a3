// Values as three numbers, with their own descriptor in front: sized, written.

#![tactic(auto)]

ghost use Rattle.std.specs.Prelude.{◌≡◌, length};
ghost use Rattle.format.specs.Answer.{fitted, wrote, room_after};
ghost use Rattle.wire.specs.Told.{answer_told};
ghost use Rattle.board_answer.specs.Told.{counted};
ghost use Rattle.board_untyped.specs.Plain.{untyped_given};

use board_answer::Counted;
use packed_value::inner as three;
use wire::Refusal;

// How many bytes the value takes with its own descriptor in front, or why it cannot be written.
fn sized(value: &[u64; 3], buffer: &[u8]) -> Result<usize, Refusal>
    ensures { answer_told result ≡ wrote (untyped_given value.now buffer.now) }
{
    packed_value::judge_value(value)?;
    let v = three::value_at(value, 0);
    untyped_size::untyped_size(v, buffer)
}

// How many bytes the value takes with its own descriptor in front.
pub fn untyped_size(value: &[u64; 3], buffer: &[u8]) -> Counted
    ensures { result ≡ counted (wrote (untyped_given value.now buffer.now)) }
{
    board_answer::answer(sized(value, buffer))
}

// How many bytes were written at the front of the room, or why none were.
fn written(value: &[u64; 3], buffer: &[u8], out: &mut [u8]) -> Result<usize, Refusal>
    ensures answer { answer_told result ≡ wrote (fitted (untyped_given value.now buffer.now) (length out.old)) }
    ensures room { out.new ≡ room_after (fitted (untyped_given value.now buffer.now) (length out.old)) out.old }
{
    packed_value::judge_value(value)?;
    let v = three::value_at(value, 0);
    untyped_write::write_untyped(v, buffer, out)
}

// The value with its own descriptor in front, at the front of the room.
pub fn untyped_write(value: &[u64; 3], buffer: &[u8], out: &mut [u8]) -> Counted
    ensures answer { result ≡ counted (wrote (fitted (untyped_given value.now buffer.now) (length out.old))) }
    ensures room { out.new ≡ room_after (fitted (untyped_given value.now buffer.now) (length out.old)) out.old }
{
    board_answer::answer(written(value, buffer, out))
}
