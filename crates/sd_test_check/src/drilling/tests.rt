//! Ages beside a search over all advances.
ghost use Rattle.sd_plan.specs.topo.Limits.{IsRates};

use sd_drill::ages::{ageing, oldest};
use sd_num::{Rates, low};
use std::test::Fail;

/// The greatest advance of a counter, up to 4000 ps, whose least reference time is at most `s`.
fn searched(rates: Rates, s: u64) -> u64
    requires { IsRates rates }
{
    let mut greatest = 0;
    for x in 0..4000 {
        if low(rates, x) <= s {
            greatest = x;
        }
    }
    greatest
}

/// Whether the oldest age of each of forty silences is what the search finds.
fn agrees(rates: Rates) -> bool
    requires { IsRates rates }
{
    for s in 0..40u64 {
        if oldest(rates, 73 * u128::from(s)) != u128::from(searched(rates, 73 * s)) {
            return false;
        }
    }
    true
}

#[test]
fn an_age_is_the_last_that_fits(rt: HostRuntime) -> Result<(), Fail> {
    assert!(rt; agrees(Rates { ppm: 0, grain: 0 }));
    assert!(rt; agrees(Rates { ppm: 200, grain: 3 }));
    assert!(rt;
        agrees(Rates {
            ppm: 99_999,
            grain: 0
        })
    );
    assert!(rt;
        agrees(Rates {
            ppm: 100_000,
            grain: 70
        })
    );
    Ok(())
}

#[test]
fn an_estimate_grows_with_its_age(rt: HostRuntime) -> Result<(), Fail> {
    let rates = Rates {
        ppm: 200,
        grain: 1000,
    };
    assert!(rt; ageing(rates, 0) == 1000);
    assert!(rt; ageing(rates, 3_000_000_000) == 601_000);
    assert!(rt; ageing(rates, 1) == 1001);
    Ok(())
}
