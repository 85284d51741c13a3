// The numbers that mark content or bound it, each said once: readers and writers take them from here.

// The declared length that says PLP.
pub const PLP_MARK: u32 = 65535;

// How many bytes PLP content may have under a type.
pub const PLP_BOUND: u32 = 65535;

// Null in place of a PLP total.
pub const PLP_NULL: u64 = 0xFFFFFFFFFFFFFFFF;

// An unknown PLP total.
pub const PLP_UNKNOWN: u64 = 0xFFFFFFFFFFFFFFFE;

// Null in place of a short length.
pub const SHORT_NULL: u64 = 0xFFFF;
