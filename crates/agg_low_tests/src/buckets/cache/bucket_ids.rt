use agg_cache::{BucketId, BucketIdProvider};
use agg_expect::expect_equal;
use agg_values::TooMany;
use std::test::Fail;

// What two draws give.
type Draws = (Result<BucketId, TooMany>, Result<BucketId, TooMany>);

// The first id of a provider, and what two draws give.
const DRAWN: &[(u32, Draws)] = &[
    (0, (Ok(0), Ok(1))),
    (4_294_967_294, (Ok(4_294_967_294), Err(TooMany))),
];

fn two_draws(provider: &mut BucketIdProvider) -> Draws {
    (provider.next_bucket_id(), provider.next_bucket_id())
}

#[test]
fn gives_ids_in_order() -> Result<(), Fail> {
    for &(next, expected) in DRAWN {
        let mut provider = BucketIdProvider::starting_at(next);
        expect_equal(two_draws(&mut provider), expected)?;
    }
    Ok(())
}

#[test]
fn a_clone_gives_the_same_ids() -> Result<(), Fail> {
    for &(next, expected) in DRAWN {
        let mut clone = BucketIdProvider::starting_at(next).clone()?;
        expect_equal(two_draws(&mut clone), expected)?;
    }
    Ok(())
}

#[test]
fn begins_at_0() -> Result<(), Fail> {
    for mut provider in [BucketIdProvider::new(), BucketIdProvider::default()] {
        expect_equal(two_draws(&mut provider), (Ok(0), Ok(1)))?;
    }
    Ok(())
}
