// Numbers in decimal, written into a slice from a place on; the answer is the place behind them.
ghost use Rattle.std.specs.Prelude.{◌≡◌, ◌+◌, ◌≤◌, ◌<◌, length};
ghost use Rattle.text.specs.Decimal.{decimal, signed_decimal};
ghost use Rattle.text.specs.Inner.Puts.{Puts};

use imp::bits;

// The digit of d, which is below ten.
fn digit(d: usize) -> u8
    requires { d < 10 }
    ensures { result ≡ 48 + d }
{
    48 + (d as u8)
}

// The digits of n: those of a tenth of it, and then its last.
pub fn put_decimal(out: &mut [u8], at: usize, n: usize) -> usize
    requires { at + length (decimal n) ≤ length out.old }
    ensures { Puts (decimal n) at out.old out.new result }
{
    if n < 10 {
        out[at] = digit(n);
        return at + 1;
    }
    let last = put_decimal(out, at, n / 10);
    out[last] = digit(n % 10);
    last + 1
}

// A negative number is 2^32 below its bits.
pub fn put_signed(out: &mut [u8], at: usize, z: i32) -> usize
    requires { at + length (signed_decimal z) ≤ length out.old }
    ensures { Puts (signed_decimal z) at out.old out.new result }
{
    let n = bits(z) as usize;
    if n < 2147483648 {
        return put_decimal(out, at, n);
    }
    out[at] = b'-';
    put_decimal(out, at + 1, 4294967296 - n)
}
