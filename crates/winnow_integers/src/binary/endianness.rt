//! The order of bytes.

/// The order of the bytes of an integer.
///
/// ```
/// let of_a_network = Endianness::Big;
/// ```
#[derive(Clone, Copy, Debug, PartialEq, Eq)]
pub enum Endianness {
    /// Most significant byte first.
    Big,
    /// Least significant byte first.
    Little,
    /// The order of the machine: least significant byte first.
    Native,
}
