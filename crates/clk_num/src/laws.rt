//! Laws of conversions, of masked differences, and of clock values.
ghost use Rattle.clk_num.specs.Laws.{ConversionRises, ConversionAdds, ConversionIsTrue, SourceCyclesAreFew, MaskedDifferenceIsTrue, MaskedDifferenceIsNone, MaskedDifferenceIsShort, WordsAreInverse, WordsCompare, WordsInRange, ShiftIsGreatest, ProductsFit};
ghost use Rattle.clk_num.specs.WrapLaws.{WrapsByTurns, WrapKeepsValues, HeightsAreValues, HeightsCompare, RaisesNeverFall, RaisesReach, RaisesAreGreatest, BitsAreInverse};

/// A conversion never falls as cycles grow, and that of a sum is the sum of the two conversions, or one more.
pub fn conversions_add()
    ensures rises { ConversionRises }
    ensures adds { ConversionAdds }
{}

/// The time of a conversion by a rate of [`crate::mult_shift`] is at most the true time and a quarter of a unit for
/// each cycle, where a cycle takes at most 1,000 units. The seconds of a clock source keep the condition of that.
pub fn conversions_are_true()
    ensures bounded { ConversionIsTrue }
    ensures few { SourceCyclesAreFew }
{}

/// The masked difference of what a counter shows of two counts, the later at or above the earlier: less than half a
/// turn above it, it is their true difference, and from there to below a whole turn above it, it is 0. It is never more
/// than how far the two counts are apart.
pub fn differences_are_true()
    ensures near { MaskedDifferenceIsTrue }
    ensures far { MaskedDifferenceIsNone }
    ensures short { MaskedDifferenceIsShort }
{}

/// A value has one word and a word one value, words compare as their values do, and the range of the one is the range
/// of the other. So [`crate::value_of`] and [`crate::word_of`] are inverse.
pub fn words_are_values()
    ensures inverse { WordsAreInverse }
    ensures order { WordsCompare }
    ensures range { WordsInRange }
{}

/// A clock value is a number modulo 2^64, and each has one word in two's complement. Above any opening, heights and
/// values correspond while they are within 2^62 of it, and within 2^61 they compare alike: so the sign of
/// [`crate::above`] tells which value is later.
pub fn values_wrap()
    ensures turns { WrapsByTurns }
    ensures keeps { WrapKeepsValues }
    ensures heights { HeightsAreValues }
    ensures order { HeightsCompare }
    ensures bits { BitsAreInverse }
{}

/// A register that [`crate::raise`] moves never falls, by the sign of [`crate::above`]: it stays as it is, or it is
/// above what it was. It is not below what was put in, and over heights it is the greater of the two.
pub fn raises_never_fall()
    ensures rises { RaisesNeverFall }
    ensures reaches { RaisesReach }
    ensures greatest { RaisesAreGreatest }
{}

/// The shift of [`crate::mult_shift`] is the greatest that passes, or none passes. Where one does, no product of its
/// mult with the cycles of `maxsec` seconds or fewer leaves 64 bits.
pub fn shift_is_greatest()
    ensures greatest { ShiftIsGreatest }
    ensures products { ProductsFit }
{}
