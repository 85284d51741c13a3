// A float as a short decimal: a whole number over a power of ten, both exact as floats, whose
// quotient, rounded once, equals that float. Equal is as IEEE has it, and 0 equals -0: who reads the
// decimal back gets the same bits where the float has no sign. The caller, `show_number`, takes the
// sign away first.

#![tactic(auto)]

ghost use Rattle.show_float.specs.Short.{TenIn, Reads64, Reads32};
ghost use Rattle.std.specs.Float.{binary32, binary64};

// The whole numbers that a float of 64 bits, or of 32, holds exactly end here.
const EXACT_64: u64 = 9007199254740992;

const EXACT_32: u64 = 16777216;

// Powers of ten, all exact in their format.
const POWERS: [u64; 16] = [
    1,
    10,
    100,
    1000,
    10000,
    100000,
    1000000,
    10000000,
    100000000,
    1000000000,
    10000000000,
    100000000000,
    1000000000000,
    10000000000000,
    100000000000000,
    1000000000000000,
];

const POWERS_32: [u32; 10] = [
    1, 10, 100, 1000, 10000, 100000, 1000000, 10000000, 100000000, 1000000000,
];

// The whole number next to x, or 0 where no u64 is near it.
fn whole(x: f64) -> u64 {
    let y = x + 0.5;
    if y > -1.0 {
        if y < 18446744073709551616.0 {
            return std::num::truncating_f64_to_u64(y);
        }
    }
    0
}

// x over this power of ten.
fn over64(x: f64, power: u64) -> Option<(u64, u64)>
    requires { TenIn binary64 power }
    ensures { Reads64 x result }
{
    let ten = std::num::nearest_u64_to_f64(power);
    let n = whole(x * ten);
    if EXACT_64 < n {
        return None;
    }
    let q = std::num::nearest_u64_to_f64(n) / ten;
    if q == x {
        return Some((n, power));
    }
    None
}

fn over32(x: f32, power: u32) -> Option<(u64, u64)>
    requires { TenIn binary32 power }
    ensures { Reads32 x result }
{
    let wide = std::num::f32_to_f64_with_nan(x);
    let n = whole(wide * std::num::nearest_u64_to_f64(power as u64));
    if EXACT_32 < n {
        return None;
    }
    let q = std::num::nearest_u32_to_f32(n as u32) / std::num::nearest_u32_to_f32(power);
    if q == x {
        return Some((n, power as u64));
    }
    None
}

// The shortest decimal of at most 15 digits behind the point.
pub fn short64(x: f64) -> Option<(u64, u64)>
    ensures { Reads64 x result }
{
    for power in POWERS {
        if let Some(short) = over64(x, power) {
            return Some(short);
        }
    }
    None
}

// The shortest decimal of at most 9 digits behind the point.
pub fn short32(x: f32) -> Option<(u64, u64)>
    ensures { Reads32 x result }
{
    for power in POWERS_32 {
        if let Some(short) = over32(x, power) {
            return Some(short);
        }
    }
    None
}
