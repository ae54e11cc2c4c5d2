//! Worked rows of each call.
use crate::biased::{value_of, word_of};
use crate::clamp::{clamp_local, target_local};
use crate::conversion::{cyc_to_ns, max_nsecs};
use crate::list::List;
use crate::masked::{mask_of, masked_delta};
use crate::rate::{Rate, mult_shift, source_rate};
use crate::wrapping::{above, bits_of, raise, value_of_bits};
use std::test::Fail;

#[test]
fn a_reading_stops_at_the_tick_end(rt: HostRuntime) {
    assert_eq!(rt; clamp_local(60, 50, 2_000_020, 1_000_000), 1_000_050);
    assert_eq!(rt; clamp_local(30, 20, 0, 1_000_000), 30);
    assert_eq!(rt; target_local(50, 2_000_020, 1_000_000), 1_000_050);
}

#[test]
fn values_go_over_the_end(rt: HostRuntime) {
    let late = 9_223_372_036_854_775_802;
    let past = -9_223_372_036_854_775_804;
    assert_eq!(rt; clamp_local(late, late, 10, 1_000_000), past);
    assert_eq!(rt; above(past, late), 10);
    assert_eq!(rt; raise(late, past), past);
    assert_eq!(rt; raise(past, late), past);
    assert_eq!(rt; value_of_bits(bits_of(past)), past);
    assert_eq!(rt; bits_of(-1), u64::MAX);
}

#[test]
fn words_keep_values(rt: HostRuntime) {
    assert_eq!(rt; word_of(0), 1 << 62);
    assert_eq!(rt; word_of(-1), (1 << 62) - 1);
    assert_eq!(rt; value_of(0), -(1 << 62));
    assert_eq!(rt; value_of(1 << 62), 0);
}

#[test]
fn a_list_has_its_room_from_the_start(rt: HostRuntime) -> Result<(), Fail> {
    let mut list = List::with_room(rt.alloc(), 2)?;
    assert_eq!(rt; list.room(), 2);
    assert!(rt; list.is_empty());
    list.push(7u64);
    list.push(9u64);
    assert_eq!(rt; list.len(), 2);
    assert_eq!(rt; list.room(), 0);
    assert_eq!(rt; list.items(), [7u64, 9].as_slice());
    Ok(())
}

#[test]
fn a_list_gives_its_vec_back(rt: HostRuntime) -> Result<(), Fail> {
    let list = List::from_vec(vec![in rt.alloc(); 1u64, 2]?);
    assert_eq!(rt; list.len(), 2);
    assert_eq!(rt; *list.get(1), 2);
    assert_eq!(rt; list.into_vec().as_slice(), [1u64, 2].as_slice());
    Ok(())
}

#[test]
fn a_list_is_written_in_place(rt: HostRuntime) -> Result<(), Fail> {
    let mut list = List::from_vec(vec![in rt.alloc(); 3u64, 1, 2]?);
    list.items_mut().sort_unstable();
    assert_eq!(rt; list.items(), [1u64, 2, 3].as_slice());
    let room = list.room();
    list.items_mut()[0] = 7;
    assert_eq!(rt; list.room(), room);
    assert_eq!(rt; list.pop(), 3);
    assert_eq!(rt; list.items(), [7u64, 2].as_slice());
    assert_eq!(rt; list.room(), room + 1);
    Ok(())
}

#[test]
fn differences_go_over_the_end(rt: HostRuntime) {
    for (now, last, bits, delta) in [
        (5, 4_294_967_290, 32, 11),
        (2_147_483_647, 0, 32, 2_147_483_647),
        (2_147_483_648, 0, 32, 0),
        (0, 1, 32, 0),
        (0, 1, 1, 0),
        (3, u64::MAX, 64, 4),
        (1 << 63, 0, 64, 0),
    ] {
        assert!(rt; bits >= 1 && bits <= 64);
        assert_eq!(rt;
            masked_delta(now, last, bits),
            delta,
            "from {last} to {now}"
        );
    }
}

#[test]
fn rates_are_those_of_the_rule(rt: HostRuntime) {
    for (hz, bits, mult, shift, wrap) in [
        (1_000_000_000, 64, 2_097_152, 21, 4_398_046_511_103),
        (24_000_000, 56, 87_381_333, 21, 4_398_046_511_097),
        (2_400_000_000, 64, 1_747_627, 22, 2_199_023_255_551),
        (1, 8, 4_000_000_000, 2, 127_500_000_000),
        (3_579_545, 24, 585_871_109, 21, 2_343_484_296),
        (14_318_180, 32, 146_467_777, 21, 149_983_003_613),
        (14_318_180, 64, 146_467_777, 21, 4_398_046_511_075),
        (19_200_000, 56, 109_226_667, 21, 4_398_046_511_078),
        (1, 64, 4_000_000_000, 2, 2_305_843_009_000_000_000),
        (4_294_967_295, 64, 976_563, 22, 2_199_023_255_551),
    ] {
        assert!(rt; hz > 0 && bits >= 1 && bits <= 64);
        let rate = mult_shift(hz, 1_000_000_000, 3600);
        assert_eq!(rt; rate, Rate { mult, shift }, "at {hz} Hz");
        assert_eq!(rt; max_nsecs(rate, mask_of(bits)), wrap, "at {hz} Hz");
    }
}

#[test]
fn sources_are_rated_by_their_width(rt: HostRuntime) {
    for (hz, bits, mult, shift, wrap) in [
        (14_318_000, 32, 2_343_513_899, 25, 149_984_889_501),
        (3_579_545, 24, 2_343_484_437, 23, 2_343_484_297),
        (14_318_180, 32, 2_343_484_437, 25, 149_983_003_933),
        (14_318_180, 64, 585_871_109, 23, 1_099_511_627_768),
        (19_200_000, 56, 873_813_333, 24, 549_755_813_878),
        (1, 64, 4_000_000_000, 2, 2_305_843_009_000_000_000),
        (4_294_967_295, 64, 3_906_250, 24, 549_755_813_887),
        (4_294_967_295, 24, 1_000_000_000, 32, 1_953_124),
    ] {
        assert!(rt; hz > 0 && bits >= 1 && bits <= 64);
        let rate = source_rate(hz, bits);
        assert_eq!(rt; rate, Rate { mult, shift }, "at {hz} Hz");
        assert_eq!(rt; max_nsecs(rate, mask_of(bits)), wrap, "at {hz} Hz");
    }
}

#[test]
fn a_rate_without_a_shift_keeps_low_bits(rt: HostRuntime) {
    for (from, to, maxsec, mult, shift) in [
        (1, u32::MAX, 3600, 4_294_967_294, 0),
        (3, u32::MAX, u32::MAX, 2_863_311_530, 0),
        (u32::MAX, 1, u32::MAX, 0, 30),
    ] {
        assert!(rt; from > 0);
        assert_eq!(rt;
            mult_shift(from, to, maxsec),
            Rate { mult, shift },
            "from {from} Hz"
        );
    }
}

#[test]
fn products_of_a_conversion_may_be_wide(rt: HostRuntime) {
    let rate = Rate {
        mult: u32::MAX,
        shift: 32,
    };
    assert_eq!(rt; cyc_to_ns(u64::MAX, rate), 18_446_744_069_414_584_319);
}
