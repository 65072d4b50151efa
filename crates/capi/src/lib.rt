// What hosts in C and Rust link: every call of the pager, the log and the batches. Stores, logs and batches cross as structs of
// numbers by value, areas as slices (address, then length), answers as document 01's numbers: 0, or the refusal's.
// Kinds and flags are numbers here, in `capi_answers` and in `capi_numbers`, since the C interface has no enums with values.
#![tactic(auto)]

pub mod batch;
pub mod log;
pub mod store;
pub mod texts;
pub mod version;
