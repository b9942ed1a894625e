//! Tests of generated inputs: their numbers, documents and requests.
mod documents;
mod draws;
mod header;
