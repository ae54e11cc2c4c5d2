//! The range tests of clock sources.
ghost use Rattle.std.specs.Prelude.{◌≡◌, ◌||◌, ◌∷◌, [], length, map};
ghost use Rattle.clk_base.specs.First.{first};
ghost use Rattle.clk_machine.specs.declared.rows.Row.TheVariants as rows;
ghost use Rattle.clk_machine.specs.Plan.{source_plan};
ghost use Rattle.clk_machine.specs.Ranges.{at_most as length_test, source_tests, other_tests, each_source};
ghost use Rattle.std.specs.List.{All};
ghost use Rattle.clk_machine.specs.Short.{IsShort};
ghost use Rattle.clk_machine.specs.Tested.{Tested};

use crate::error::MachineError;
use crate::jumps::test_jumps;
use crate::parts::SourcePart;
use crate::ranges::{at_most, ranges, unless_held, value_at, width};
use crate::rows::Row;
use clk_num::List;

/// The most sources.
const MAX_SOURCES: usize = 8;

/// The test of the sources.
pub(crate) fn test_sources(sources: &List<SourcePart>) -> Option<MachineError>
    requires short { IsShort sources.now.items }
    requires each { All (λ s. IsShort s.jumps) (map source_plan sources.now.items) }
    ensures { result ≡ first (length_test rows.Source 0 8 (map source_plan sources.now.items) ∷ each_source (map source_plan sources.now.items) ∷ []) }
{
    at_most(Row::Source, 0, MAX_SOURCES, sources).or(test_each(sources.items()))
}

/// The test of each source.
fn test_each(sources: &[SourcePart]) -> Option<MachineError>
    requires short { IsShort sources.now }
    requires each { All (λ s. IsShort s.jumps) (map source_plan sources.now) }
    ensures { result ≡ each_source (map source_plan sources.now) }
{
    let mut own_before = false;
    for (i, source) in sources.iter().enumerate() {
        match test_source(i as u32 + 1, own_before, source) {
            Ok(own) => own_before = own,
            Err(refusal) => return Some(refusal),
        }
    }
    None
}

/// The test of a source, which is told whether the CPUs' own came before it.
fn test_source(entry: u32, own_before: bool, source: &SourcePart) -> Result<bool, MachineError>
    requires { IsShort (source_plan source.now).jumps }
    ensures { Tested (first (source_tests entry own_before (source_plan source.now)))
        (own_before || source.now.tsc) (λ _. Unit {0}) result }
{
    match refusal_of(entry, own_before, source) {
        Some(refusal) => Err(refusal),
        None => Ok(own_before || source.tsc),
    }
}

/// Its refusal, if there is one.
fn refusal_of(entry: u32, own_before: bool, source: &SourcePart) -> Option<MachineError>
    requires { IsShort (source_plan source.now).jumps }
    ensures { result ≡ first (source_tests entry own_before (source_plan source.now)) }
{
    let refusal = unless_held(
        !(own_before && source.tsc),
        value_at(Row::SourceTsc, entry, 0),
    )
    .or(ranges(Row::SourceRating, entry, 1, 1_000, source.rating))
    .or(ranges(Row::SourceMargin, entry, 0, 1 << 30, source.margin));
    if source.tsc {
        refusal
    } else {
        refusal.or(test_other(entry, source))
    }
}

/// The test of what a source that is not the CPUs' own has besides.
fn test_other(entry: u32, source: &SourcePart) -> Option<MachineError>
    requires { IsShort (source_plan source.now).jumps }
    ensures { result ≡ first (other_tests entry (source_plan source.now)) }
{
    ranges(
        Row::SourceNominalKhz,
        entry,
        1_000,
        4_000_000,
        source.nominal_khz,
    )
    .or(ranges(Row::SourceKhz, entry, 1_000, 4_000_000, source.khz))
    .or(width(Row::SourceBits, entry, source.bits))
    .or(test_jumps(Row::SourceJumps, entry, &source.jumps))
}
