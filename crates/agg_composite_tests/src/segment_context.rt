//! Tests of requests in a segment: of filters, of metrics, of the context of a request with its
//! nodes and names, and of how many documents its aggregations list.
mod builders;
mod context;
mod filter;
mod given;
mod metric;
mod paged;
mod uncut;
