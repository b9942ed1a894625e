//! The first numbers of seeds.
use agg_expect::expect_equal_for;
use agg_pages::generator::Generator;
use std::test::Fail;

// Seeds, and their first two numbers.
const FIRST: &[(u64, [u64; 2])] = &[
    (0, [167_951_807, 218_396_424]),
    (7, [1_059_165_278, 2_052_263_231]),
    (18_446_744_073_709_551_615, [1_574_552_488, 1_490_332_343]),
];

#[test]
fn seeds_have_their_numbers() -> Result<(), Fail> {
    for (seed, numbers) in FIRST {
        let mut generator = Generator::new(*seed);
        for number in numbers {
            expect_equal_for(seed, generator.draw(), *number)?;
        }
    }
    Ok(())
}
