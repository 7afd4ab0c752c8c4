// The sets for panel software in C: each method of `sets` as an exported function on plain numbers, a set as its 64 bits.
#![tactic(auto)]

ghost use Rattle.std.specs.Prelude.{◌≡◌, ◌&&◌, ◌||◌, not, ℕ, ◌^◌, eqb, ltb, leb};
ghost use Rattle.sets.specs.Member.{bit, members, full_of, bits_of, verdict_number};

use sets::Set;

#[unsafe(no_mangle)]
pub extern "C" fn sets_meet(a: u64, b: u64) -> u64
    ensures { (s : ℕ) → bit result s ≡ (bit a s && bit b s) }
{
    Set { bits: a }.meet(Set { bits: b }).bits
}

#[unsafe(no_mangle)]
pub extern "C" fn sets_join(a: u64, b: u64) -> u64
    ensures { (s : ℕ) → bit result s ≡ (bit a s || bit b s) }
{
    Set { bits: a }.join(Set { bits: b }).bits
}

// What is left of a when the settings of b are taken away.
#[unsafe(no_mangle)]
pub extern "C" fn sets_take_away(a: u64, b: u64) -> u64
    ensures { (s : ℕ) → bit result s ≡ (bit a s && not (bit b s)) }
{
    Set { bits: a }.take_away(Set { bits: b }).bits
}

// No setting at 64 or above is a member.
#[unsafe(no_mangle)]
pub extern "C" fn sets_has(a: u64, s: u64) -> bool
    ensures { result ≡ bit a s }
{
    Set { bits: a }.has(s)
}

#[unsafe(no_mangle)]
pub extern "C" fn sets_count(a: u64) -> u32
    ensures { result ≡ members a 64 }
{
    Set { bits: a }.count()
}

// The full set of f options, and 0 exactly where it is refused: a full set is never empty.
#[unsafe(no_mangle)]
pub extern "C" fn sets_full(f: u32) -> u64
    ensures bits { result ≡ bits_of (full_of f) }
    ensures refused { eqb result 0 ≡ ltb 6 f }
    ensures members { (s : ℕ) → bit result s ≡ (leb f 6 && ltb s (2 ^ f)) }
{
    match Set::full(f) {
        Some(all) => all.bits,
        None => 0,
    }
}

// Document 01's number of the refusal, and 0 where the full set is not refused.
#[unsafe(no_mangle)]
pub extern "C" fn sets_full_refusal(f: u32) -> u32
    ensures { result ≡ verdict_number (full_of f) }
{
    match Set::full(f) {
        Some(_) => 0,
        None => 3,
    }
}

// The settings of the set `full` in which option k is on.
#[unsafe(no_mangle)]
pub extern "C" fn sets_option(full: u64, k: u32) -> u64
    ensures { (s : ℕ) → bit result s ≡ (bit full s && bit s k) }
{
    Set::option(Set { bits: full }, k).bits
}
