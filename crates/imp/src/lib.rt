// Numbers of 32 bits: the sum that wraps, and the signed less.
#![tactic(auto)]

ghost use Rattle.std.specs.Prelude.{◌≡◌, ◌+ℤ◌, int_lt};
ghost use Rattle.imp.specs.Numbers.{low32, signed32, wrap};

// The 32 bits of `a`, in two's complement.
pub fn bits(a: i32) -> u32
    ensures { result ≡ low32 a }
{
    a.cast_unsigned()
}

// The 32 bits `n`, read as signed.
pub fn signed(n: u32) -> i32
    ensures { result ≡ signed32 n }
{
    n.cast_signed()
}

// "A sum that leaves the range wraps modulo 2^32 into the signed range".
pub fn sum(a: i32, b: i32) -> i32
    ensures { result ≡ wrap (a +ℤ b) }
{
    a.wrapping_add(b)
}

// "less compares signed".
pub fn less(a: i32, b: i32) -> bool
    ensures { result ≡ int_lt a b }
{
    a < b
}
