//! Parsers of binary data, as in winnow's documentation: integers whose bytes are in one order.

mod big_endian;
mod bytes;
mod endianness;
pub mod impls;
mod little_endian;

pub use crate::binary::big_endian::{
    be_i8, be_i16, be_i24, be_i32, be_i64, be_i128, be_u8, be_u16, be_u24, be_u32, be_u64, be_u128,
    i8, u8,
};
pub use crate::binary::endianness::Endianness;
pub use crate::binary::little_endian::{
    le_i8, le_i16, le_i24, le_i32, le_i64, le_i128, le_u8, le_u16, le_u24, le_u32, le_u64, le_u128,
};
