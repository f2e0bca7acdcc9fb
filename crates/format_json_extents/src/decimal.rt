//! Numbers of JSON as decimals: a sign, digits and a power of ten.

pub use format_json_texts::decimal::{Decimal, DecimalError, as_decimal};
