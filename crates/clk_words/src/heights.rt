//! What the words keep of clock values: heights above the opening.
ghost use Rattle.std.specs.Prelude.{◌^◌, ◌<◌};
ghost use Rattle.clk_num.specs.Biased.{IsWordOf};
ghost use Rattle.clk_num.specs.Range.{IsNear};
ghost use Rattle.clk_num.specs.Wrapping.{above};

use clk_num::{above, value_of, word_of};

/// The word of a clock value, where clock words open so.
pub(crate) fn word_at(opens: i64, value: i64) -> u64
    requires { IsNear 60 (above value opens) }
    ensures { IsWordOf (above value opens) result }
{
    word_of(above(value, opens))
}

/// The clock value that a word keeps.
pub(crate) fn value_at(opens: i64, word: u64) -> i64
    requires { word < 2 ^ 63 }
    ensures { IsWordOf (above result opens) word }
{
    opens.wrapping_add(value_of(word))
}
