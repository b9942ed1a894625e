use agg_expect::expect_equal_for;
use peslumok_texts::dates::DateUnit;
use peslumok_texts::decimals::Places;
use peslumok_texts::words::{
    BySpec, BySpecError, Condition, ConditionError, DateField, DateFieldError, DecimalFieldError,
    Missing, Test, read_by, read_condition, read_date_field, read_decimal_field,
};
use std::test::Fail;

// A source by its field alone.
const SHOP: BySpec<'static> = BySpec {
    name: None,
    field: "shop",
    interval: None,
    offset: None,
    is_descending: false,
    missing: Missing::NoGroup,
    min: None,
};

// Texts of `--by`, and what they stand for.
const BY: &[(&str, Result<BySpec<'static>, BySpecError<'static>>)] = &[
    ("shop", Ok(SHOP)),
    (
        "month=day:month,desc,missing=first",
        Ok(BySpec {
            name: Some("month"),
            field: "day",
            interval: Some("month"),
            is_descending: true,
            missing: Missing::First,
            ..SHOP
        }),
    ),
    (
        "shop,missing",
        Ok(BySpec {
            missing: Missing::ByOrder,
            ..SHOP
        }),
    ),
    (
        "shop,missing=last",
        Ok(BySpec {
            missing: Missing::Last,
            ..SHOP
        }),
    ),
    (
        "customer.city:10",
        Ok(BySpec {
            field: "customer.city",
            interval: Some("10"),
            ..SHOP
        }),
    ),
    (
        "day:1d+6h",
        Ok(BySpec {
            field: "day",
            interval: Some("1d"),
            offset: Some("+6h"),
            ..SHOP
        }),
    ),
    (
        "start=day:month-1d,desc,missing=last,min=2026-01-31",
        Ok(BySpec {
            name: Some("start"),
            field: "day",
            interval: Some("month"),
            offset: Some("-1d"),
            is_descending: true,
            missing: Missing::Last,
            min: Some("2026-01-31"),
        }),
    ),
    (
        "day:1d+-6h",
        Ok(BySpec {
            field: "day",
            interval: Some("1d"),
            offset: Some("+-6h"),
            ..SHOP
        }),
    ),
    (
        "shop,min=a=b:c,min=d",
        Ok(BySpec {
            min: Some("a=b:c,min=d"),
            ..SHOP
        }),
    ),
    (
        "shop,min=",
        Ok(BySpec {
            min: Some(""),
            ..SHOP
        }),
    ),
    (
        "a+b",
        Ok(BySpec {
            field: "a+b",
            ..SHOP
        }),
    ),
    ("", Err(BySpecError::NoField)),
    (",min=3", Err(BySpecError::NoField)),
    ("=shop", Err(BySpecError::NoName)),
    ("shop:", Err(BySpecError::NoInterval)),
    ("day:+6h", Err(BySpecError::NoInterval)),
    ("day:1d+", Err(BySpecError::NoOffset)),
    ("day:month-,min=3", Err(BySpecError::NoOffset)),
    ("shop,min", Err(BySpecError::UnknownWords("min"))),
    ("shop,asc,min=3", Err(BySpecError::UnknownWords("asc"))),
    ("shop,", Err(BySpecError::UnknownWords(""))),
    ("shop,asc", Err(BySpecError::UnknownWords("asc"))),
    (
        "shop,missing,desc",
        Err(BySpecError::UnknownWords("missing,desc")),
    ),
];

// Texts of `--where`, and what they stand for: the field and its test.
const CONDITIONS: &[(&str, Result<(&str, Test<'static>), ConditionError>)] = &[
    ("shop=Leith", Ok(("shop", Test::Is("Leith")))),
    ("shop=", Ok(("shop", Test::Is("")))),
    ("shop=a=b", Ok(("shop", Test::Is("a=b")))),
    ("shop!=Leith", Ok(("shop", Test::IsNot("Leith")))),
    ("items<3", Ok(("items", Test::Below("3")))),
    ("items<=3", Ok(("items", Test::AtMost("3")))),
    ("items>3", Ok(("items", Test::Above("3")))),
    ("items>=3", Ok(("items", Test::AtLeast("3")))),
    ("shop?", Ok(("shop", Test::Exists))),
    ("shop", Err(ConditionError::NoTest)),
    ("", Err(ConditionError::NoTest)),
    ("=3", Err(ConditionError::NoField)),
    ("shop!3", Err(ConditionError::LoneExclamation)),
    ("shop?3", Err(ConditionError::AfterQuestion)),
];

// Texts of `--date`, and what they stand for.
const DATES: &[(&str, Result<(&str, Option<DateUnit>), DateFieldError>)] = &[
    ("day", Ok(("day", None))),
    ("day=millis", Ok(("day", Some(DateUnit::Millis)))),
    ("day=days", Err(DateFieldError::UnknownUnit)),
    ("=millis", Err(DateFieldError::NoField)),
];

// Texts of `--decimal`, and what they stand for.
const DECIMALS: &[(&str, Result<(&str, u32), DecimalFieldError>)] = &[
    ("amount=2", Ok(("amount", 2))),
    ("amount=18", Ok(("amount", 18))),
    ("amount", Err(DecimalFieldError::NoPlaces)),
    ("amount=19", Err(DecimalFieldError::NotPlaces)),
    ("amount=", Err(DecimalFieldError::NotPlaces)),
    ("=2", Err(DecimalFieldError::NoField)),
];

#[test]
fn reads_sources() -> Result<(), Fail> {
    for &(text, expected) in BY {
        expect_equal_for(text, read_by(text), expected)?;
    }
    Ok(())
}

#[test]
fn reads_conditions() -> Result<(), Fail> {
    for &(text, expected) in CONDITIONS {
        expect_equal_for(text, read_condition(text).map(of_condition), expected)?;
    }
    Ok(())
}

fn of_condition(condition: Condition<'_>) -> (&str, Test<'_>) {
    (condition.field, condition.test)
}

#[test]
fn reads_fields_of_dates() -> Result<(), Fail> {
    for &(text, expected) in DATES {
        expect_equal_for(text, read_date_field(text).map(of_date), expected)?;
    }
    Ok(())
}

fn of_date(date: DateField<'_>) -> (&str, Option<DateUnit>) {
    (date.field, date.unit)
}

#[test]
fn reads_fields_of_decimals() -> Result<(), Fail> {
    for &(text, expected) in DECIMALS {
        let read = match read_decimal_field(text) {
            Ok(decimal) => Ok((decimal.field, Places::get(decimal.places))),
            Err(why) => Err(why),
        };
        expect_equal_for(text, read, expected)?;
    }
    Ok(())
}
