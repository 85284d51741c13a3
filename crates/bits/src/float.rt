// Floats as their bits. The logic has one NaN with no payload, and a row may carry any bits, so a
// NaN's pattern is a case of its own.
ghost use Rattle.std.specs.Prelude.{◌≡◌};

// The patterns without their sign: infinity's is the largest that is no NaN's, and the quiet NaN's is
// the one that a NaN handed over as a value has.
const INFINITY_32: u32 = 0x7F80_0000;

const QUIET_NAN_32: u32 = 0x7FC0_0000;

const INFINITY_64: u64 = 0x7FF0_0000_0000_0000;

const QUIET_NAN_64: u64 = 0x7FF8_0000_0000_0000;

// The sign's bit.
const SIGN_32: u32 = 1 << 31;

const SIGN_64: u64 = 1 << 63;

#[derive(Clone, Copy)]
pub enum Float32 {
    Value(f32),
    Nan(u32),
}

#[derive(Clone, Copy)]
pub enum Float64 {
    Value(f64),
    Nan(u64),
}

// What a pattern of 32 bits stands for.
impl From<u32> for Float32 {
    ghost use Rattle.bits.specs.Told.{float32_of};

    ghost from_gives = { λ n x. x ≡ float32_of n };

    fn from(n: u32) -> Float32 {
        if n % SIGN_32 > INFINITY_32 {
            Float32::Nan(n)
        } else {
            Float32::Value(f32::from_bits(n))
        }
    }
}

// Its bits.
impl From<Float32> for u32 {
    ghost use Rattle.bits.specs.Told.{float32_bits};

    ghost from_gives = { λ x n. n ≡ float32_bits x };

    #[tactic(auto, using(crate::proofs::Floats::quiet32))]
    fn from(x: Float32) -> u32 {
        match x {
            Float32::Value(v) if v.is_nan() => QUIET_NAN_32,
            Float32::Value(v) => v.to_bits(),
            Float32::Nan(n) => n,
        }
    }
}

// What a pattern of 64 bits stands for.
impl From<u64> for Float64 {
    ghost use Rattle.bits.specs.Told.{float64_of};

    ghost from_gives = { λ n x. x ≡ float64_of n };

    fn from(n: u64) -> Float64 {
        if n % SIGN_64 > INFINITY_64 {
            Float64::Nan(n)
        } else {
            Float64::Value(f64::from_bits(n))
        }
    }
}

// Its bits.
impl From<Float64> for u64 {
    ghost use Rattle.bits.specs.Told.{float64_bits};

    ghost from_gives = { λ x n. n ≡ float64_bits x };

    #[tactic(auto, using(crate::proofs::Floats::quiet64))]
    fn from(x: Float64) -> u64 {
        match x {
            Float64::Value(v) if v.is_nan() => QUIET_NAN_64,
            Float64::Value(v) => v.to_bits(),
            Float64::Nan(n) => n,
        }
    }
}
