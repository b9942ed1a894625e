//! Tests of the results of a request over the segments of a snapshot.
mod results;
