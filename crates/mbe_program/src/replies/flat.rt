// Token trees as plain data, for languages other than Rattle: a list of tokens of numbers alone,
// and the bytes of their texts.
//
// `encoder` encodes trees, `decoder` decodes them, and `flat_token` says what the numbers stand
// for.
pub mod decoder;
pub mod encoder;
pub mod flat_token;
