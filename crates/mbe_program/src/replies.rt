// The functions behind the C library. They take a `Request` in numbers, with texts or flat tokens,
// and return an `Answer` in memory of an allocator. `mbe_c` copies it into memory of the caller.
pub mod answer;
pub mod flat;
pub mod kept_macro;
pub mod read_macro;
pub mod request_codes;
pub mod requests;
