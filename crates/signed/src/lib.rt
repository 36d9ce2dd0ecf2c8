// Signed numbers: from and to their 32 bits, sums and differences that wrap, in 64 bits, and without the sign.
#![tactic(auto)]

ghost use Rattle.std.specs.Prelude.{◌≡◌, unsigned_abs};
ghost use Rattle.signed.specs.Signed.{signed, bits, sum32, difference32};

// The number that 32 bits stand for.
pub fn from_bits(x: u32) -> i32
    ensures { result ≡ signed x }
{
    x.cast_signed()
}

// The bits of a number.
pub fn to_bits(z: i32) -> u32
    ensures { result ≡ bits z }
{
    z.cast_unsigned()
}

// The sum at 32 bits, wrapping.
#[tactic(auto, unfolding(crate::specs::Signed::sum32))]
pub fn wrapping_add(a: i32, b: i32) -> i32
    ensures { result ≡ sum32 a b }
{
    from_bits(to_bits(a).wrapping_add(to_bits(b)))
}

// The difference at 32 bits, wrapping.
#[tactic(auto, unfolding(crate::specs::Signed::difference32))]
pub fn wrapping_sub(a: i32, b: i32) -> i32
    ensures { result ≡ difference32 a b }
{
    from_bits(to_bits(a).wrapping_sub(to_bits(b)))
}

// The same number, in 64 bits.
pub fn wide(z: i32) -> i64
    ensures { result ≡ z }
{
    i64::from(z)
}

// A number without its sign.
pub fn magnitude(z: i64) -> u64
    ensures { result ≡ unsigned_abs z }
{
    z.unsigned_abs()
}
