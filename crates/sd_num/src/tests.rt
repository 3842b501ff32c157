//! Numbers and their faults, and growth worked out by hand.
use super::*;

#[test]
fn reads_numbers_and_names_their_first_fault(rt: HostRuntime) {
    let cases: [(&[u8], Result<u64, NumFault>); 16] = [
        (b"0", Ok(0)),
        (b"7", Ok(7)),
        (b"125", Ok(125)),
        (b"1152921504606846976", Ok(1_152_921_504_606_846_976)),
        (b"9999999999999999999", Ok(9_999_999_999_999_999_999)),
        (b"18446744073709551615", Ok(u64::MAX)),
        (b"18446744073709551616", Err(NumFault::TooLarge)),
        (b"99999999999999999999", Err(NumFault::TooLarge)),
        (b"", Err(NumFault::Empty)),
        (b"00", Err(NumFault::LeadingZero)),
        (b"05", Err(NumFault::LeadingZero)),
        (b"000000000000000000000000", Err(NumFault::LeadingZero)),
        (b"-1", Err(NumFault::NotDigit(0))),
        (b"12-", Err(NumFault::NotDigit(2))),
        (b"0x", Err(NumFault::NotDigit(1))),
        (b"99999999999999999999+", Err(NumFault::NotDigit(20))),
    ];
    for (bytes, wanted) in cases {
        assert_eq!(rt; read_u64(bytes), wanted, "at {bytes:?}");
    }
}

#[test]
fn grows_and_corrects_as_worked_out_by_hand(rt: HostRuntime) {
    for (counter, growth) in [
        (0, 0),
        (1, 1),
        (5_000, 1),
        (5_001, 2),
        (5_000_000, 1_000),
        (1_152_921_504_606_846_976, 230_584_300_921_370),
    ] {
        assert_eq!(rt; grow(200, counter), growth, "at {counter}");
    }
    let rates = Rates {
        ppm: 200,
        grain: 1_000,
    };
    assert_eq!(rt; low(rates, 50_000_000), 49_989_000);
    assert_eq!(rt; low(rates, 900), 0);
    assert_eq!(rt; up(rates, 50_000_000), 50_011_000);
    let odd = bounds_of(400_000, 600_001);
    assert_eq!(rt; (odd.mid, odd.half), (500_000, 100_001));
}
