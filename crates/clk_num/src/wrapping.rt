//! Clock values: signed 64-bit words that wrap, compared by the sign of a difference.
ghost use Rattle.std.specs.Prelude.{◌≡◌};
ghost use Rattle.clk_num.specs.Wrapping.{above, raise, bits_of, value_of_bits};

/// How far the clock value `value`, in ns, is above `other`; negative where it is below. Both wrap at 64 bits, and the
/// answer is right while they are less than 2^63 apart. It is how Linux compares times, as in `time_after64`.
pub fn above(value: i64, other: i64) -> i64
    ensures { result ≡ above value other }
{
    value.wrapping_sub(other)
}

/// What a register that only rises holds once `value` is put into it, in ns: `value` where that is above `old`, and
/// else `old`. Above is meant by the sign of the difference.
pub fn raise(old: i64, value: i64) -> i64
    ensures { result ≡ raise old value }
{
    if above(value, old) > 0 { value } else { old }
}

/// The word that keeps a signed value in two's complement.
pub fn bits_of(value: i64) -> u64
    ensures { result ≡ bits_of value }
{
    value.cast_unsigned()
}

/// The signed value that a word keeps in two's complement.
pub fn value_of_bits(word: u64) -> i64
    ensures { result ≡ value_of_bits word }
{
    word.cast_signed()
}
