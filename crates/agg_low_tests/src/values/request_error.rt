use agg_expect::expect_equal;
use agg_values::{
    AggregationError, DateHistogramParseError, InvalidArgument, OutOfMemory, RequestError, Text,
};
use std::alloc::Global;
use std::test::Fail;

fn limited(current: u64) -> Result<(), AggregationError> {
    Err(AggregationError::MemoryExceeded { limit: 1, current })
}

fn misread(text: Text) -> Result<(), AggregationError> {
    Err(DateHistogramParseError::UnitMissing(text))?;
    Ok(())
}

// The part of a request whose error is passed on.
#[derive(Clone, Copy)]
enum Part {
    Argument,
    Interval,
    Memory,
    Limit,
}

fn refused(alloc: Global, part: Part) -> Result<(), RequestError> {
    match part {
        Part::Argument => Err(InvalidArgument::NoSource)?,
        Part::Interval => misread(Text::copy_of(alloc, "5")?)?,
        Part::Memory => Err(OutOfMemory)?,
        Part::Limit => limited(2)?,
    }
    Ok(())
}

// The error of a request for that of its part.
fn error_for(alloc: Global, part: Part) -> Result<RequestError, OutOfMemory> {
    Ok(match part {
        Part::Argument => RequestError::Invalid(InvalidArgument::NoSource),
        Part::Interval => {
            let unit = DateHistogramParseError::UnitMissing(Text::copy_of(alloc, "5")?);
            RequestError::Aggregation(AggregationError::from(unit))
        }
        Part::Memory => RequestError::OutOfMemory,
        Part::Limit => RequestError::Aggregation(AggregationError::MemoryExceeded {
            limit: 1,
            current: 2,
        }),
    })
}

#[test]
fn passes_the_errors_of_its_parts_on(rt: HostRuntime) -> Result<(), Fail> {
    let alloc = rt.alloc();
    for part in [Part::Argument, Part::Interval, Part::Memory, Part::Limit] {
        expect_equal(refused(alloc, part), Err(error_for(alloc, part)?))?;
    }
    Ok(())
}
