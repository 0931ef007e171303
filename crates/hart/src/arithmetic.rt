//! What the instructions compute of one or two words.

ghost use Rattle.std.specs.Prelude.{◌≡◌, ◌*ℤ◌};
ghost use Rattle.std.specs.Int.{w8, w16, w64, cast_unsigned};
ghost use Rattle.hart.specs.Arithmetic as spec;

/// The sum, modulo 2^32.
#[tactic(auto, unfolding(crate::specs::Arithmetic::sum))]
#[inline(always)]
pub fn sum(a: u32, b: u32) -> u32
    ensures { result ≡ spec.sum a b }
{
    a.wrapping_add(b)
}

/// The difference, modulo 2^32.
#[tactic(auto, unfolding(crate::specs::Arithmetic::difference))]
#[inline(always)]
pub fn difference(a: u32, b: u32) -> u32
    ensures { result ≡ spec.difference a b }
{
    a.wrapping_sub(b)
}

/// A word shifted left by the low five bits of another.
#[tactic(auto, unfolding(crate::specs::Arithmetic::shifted_left))]
#[inline(always)]
pub fn shifted_left(a: u32, b: u32) -> u32
    ensures { result ≡ spec.shifted_left a b }
{
    a.wrapping_shl(b)
}

/// A word shifted right by the low five bits of another, with zeros shifted in.
#[tactic(auto, unfolding(crate::specs::Arithmetic::shifted_right))]
#[inline(always)]
pub fn shifted_right(a: u32, b: u32) -> u32
    ensures { result ≡ spec.shifted_right a b }
{
    a.wrapping_shr(b)
}

/// A signed number shifted right by the low five bits of a word.
#[tactic(auto, unfolding(crate::specs::Arithmetic::shifted_right_signed))]
#[inline(always)]
pub fn shifted_right_signed(a: u32, b: u32) -> u32
    ensures { result ≡ spec.shifted_right_signed a b }
{
    a.cast_signed().wrapping_shr(b).cast_unsigned()
}

/// Whether one signed number is below another.
#[tactic(auto, unfolding(crate::specs::Arithmetic::is_below_signed))]
#[inline(always)]
pub fn is_below_signed(a: u32, b: u32) -> bool
    ensures { result ≡ spec.is_below_signed a b }
{
    a.cast_signed() < b.cast_signed()
}

/// 1 if the test holds, else 0.
#[tactic(auto, unfolding(crate::specs::Arithmetic::one_if))]
#[inline(always)]
pub fn one_if(test: bool) -> u32
    ensures { result ≡ spec.one_if test }
{
    u32::from(test)
}

/// The low word of the product.
#[tactic(auto, unfolding(crate::specs::Arithmetic::product))]
#[inline(always)]
pub fn product(a: u32, b: u32) -> u32
    ensures { result ≡ spec.product a b }
{
    a.wrapping_mul(b)
}

/// The high word of the product of two signed numbers.
#[tactic(auto, unfolding(crate::specs::Arithmetic::high_product_signed))]
#[inline(always)]
pub fn high_product_signed(a: u32, b: u32) -> u32
    ensures { result ≡ spec.high_product_signed a b }
{
    (signed_product(a.cast_signed(), b.cast_signed()) >> 32) as u32
}

/// The 64 bits of the product of two signed numbers.
#[inline(always)]
fn signed_product(a: i32, b: i32) -> u64
    ensures { result ≡ cast_unsigned w64 (a *ℤ b) }
{
    (i64::from(a) * i64::from(b)).cast_unsigned()
}

/// The high word of the product of a signed and an unsigned number.
#[tactic(auto, unfolding(crate::specs::Arithmetic::high_product_mixed))]
#[inline(always)]
pub fn high_product_mixed(a: u32, b: u32) -> u32
    ensures { result ≡ spec.high_product_mixed a b }
{
    let product = i64::from(a.cast_signed()) * i64::from(b);
    (product.cast_unsigned() >> 32) as u32
}

/// The high word of the product.
#[tactic(auto, unfolding(crate::specs::Arithmetic::high_product))]
#[inline(always)]
pub fn high_product(a: u32, b: u32) -> u32
    ensures { result ≡ spec.high_product a b }
{
    ((u64::from(a) * u64::from(b)) >> 32) as u32
}

/// The quotient of two signed numbers, rounded toward zero, and all ones by zero. -2^31 by -1 gives -2^31.
#[tactic(auto, unfolding(crate::specs::Arithmetic::quotient_signed))]
#[inline(always)]
pub fn quotient_signed(a: u32, b: u32) -> u32
    ensures { result ≡ spec.quotient_signed a b }
{
    if b == 0 {
        u32::MAX
    } else {
        a.cast_signed()
            .wrapping_div(b.cast_signed())
            .cast_unsigned()
    }
}

/// The quotient, and all ones by zero.
#[tactic(auto, unfolding(crate::specs::Arithmetic::quotient))]
#[inline(always)]
pub fn quotient(a: u32, b: u32) -> u32
    ensures { result ≡ spec.quotient a b }
{
    if b == 0 { u32::MAX } else { a / b }
}

/// The remainder of two signed numbers, with the sign of the first, and the first by zero. -2^31 by -1
/// gives 0.
#[tactic(auto, unfolding(crate::specs::Arithmetic::remainder_signed))]
#[inline(always)]
pub fn remainder_signed(a: u32, b: u32) -> u32
    ensures { result ≡ spec.remainder_signed a b }
{
    if b == 0 {
        a
    } else {
        a.cast_signed()
            .wrapping_rem(b.cast_signed())
            .cast_unsigned()
    }
}

/// The remainder, and the first by zero.
#[tactic(auto, unfolding(crate::specs::Arithmetic::remainder))]
#[inline(always)]
pub fn remainder(a: u32, b: u32) -> u32
    ensures { result ≡ spec.remainder a b }
{
    if b == 0 { a } else { a % b }
}

/// A byte as a signed number, extended to a word.
#[tactic(auto, unfolding(crate::specs::Arithmetic::sign_extended))]
#[inline(always)]
pub fn extended_byte(byte: u8) -> u32
    ensures { result ≡ spec.sign_extended w8 byte }
{
    i32::from(byte.cast_signed()).cast_unsigned()
}

/// Two bytes as a signed number, extended to a word.
#[tactic(auto, unfolding(crate::specs::Arithmetic::sign_extended))]
#[inline(always)]
pub fn extended_half(half: u16) -> u32
    ensures { result ≡ spec.sign_extended w16 half }
{
    i32::from(half.cast_signed()).cast_unsigned()
}
