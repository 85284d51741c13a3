// Two's complement at 16, 32 and 64 bits, both ways: the library's casts, in the words of `format`.

#![tactic(auto, using(crate::proofs::Complement::unsigned_is))]

ghost use Rattle.std.specs.Prelude.{◌≡◌};
ghost use Rattle.format.specs.Number.{signed, unsigned};

// What a number's 32 bits stand for.
pub fn to_i32(n: u32) -> i32
    ensures { result ≡ signed 4 n }
{
    n.cast_signed()
}

// Its 32 bits.
pub fn of_i32(z: i32) -> u32
    ensures { result ≡ unsigned 4 z }
{
    z.cast_unsigned()
}

// What a number's 16 bits stand for.
pub fn to_i16(n: u16) -> i16
    ensures { result ≡ signed 2 n }
{
    n.cast_signed()
}

// Its 16 bits.
pub fn of_i16(z: i16) -> u16
    ensures { result ≡ unsigned 2 z }
{
    z.cast_unsigned()
}

// What a number's 64 bits stand for.
pub fn to_i64(n: u64) -> i64
    ensures { result ≡ signed 8 n }
{
    n.cast_signed()
}

// Its 64 bits.
pub fn of_i64(z: i64) -> u64
    ensures { result ≡ unsigned 8 z }
{
    z.cast_unsigned()
}
