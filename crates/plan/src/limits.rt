// The limits of a plan.

// A plan that is not blank has 1 to MAX_PITS pits.
pub const MAX_PITS: u16 = 512;

// A plan has at most MAX_DUCTS ducts.
pub const MAX_DUCTS: usize = 1024;

// A duct is 1 to MAX_LENGTH centimetres long.
pub const MAX_LENGTH: u32 = 1_000_000;

// A bore is MIN_BORE to MAX_BORE millimetres.
pub const MIN_BORE: u16 = 10;

pub const MAX_BORE: u16 = 300;
