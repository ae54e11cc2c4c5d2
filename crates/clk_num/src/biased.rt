//! Signed values in words that compare as they do.
ghost use Rattle.std.specs.Prelude.{◌^◌, ◌<◌, pos, ◌-ℤ◌, ◌≤ℤ◌, ◌<ℤ◌};
ghost use Rattle.clk_num.specs.Biased.{IsWordOf};

const BIAS: i64 = 1 << 62;

/// The word that keeps a signed value, such as a height in ns: the value plus 2^62. Words compare as their values do.
pub fn word_of(value: i64) -> u64
    requires low { (pos 0 -ℤ pos (2 ^ 62)) ≤ℤ value }
    requires high { value <ℤ pos (2 ^ 62) }
    ensures { IsWordOf value result }
{
    (value + BIAS) as u64
}

/// The signed value that a word of [`word_of`] keeps.
pub fn value_of(word: u64) -> i64
    requires { word < 2 ^ 63 }
    ensures { IsWordOf result word }
{
    word as i64 - BIAS
}
