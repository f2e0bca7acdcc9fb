//! The amount of input that is needed.
ghost use Rattle.std.specs.Prelude.{◌≡◌, ◌↔◌, IsSome, IsTrue, ℕ};

use std::num::NonZeroUsize;

/// The amount of input that a parser needs when it returns `Incomplete`.
///
/// The unit is that of the stream's offsets: bytes of bytes and text, items of token lists, bits of
/// bits.
///
/// ```
/// assert_eq!(rt; Needed::new(0), Needed::Unknown);
/// // An empty text lacks one byte at least.
/// let asks: Result<char, ErrMode<EmptyError>> = Any.parse_next(&mut Partial::new(""));
/// assert_eq!(rt; asks, Err(ErrMode::Incomplete(Needed::new(1))));
/// ```
#[derive(Clone, Copy, Debug, PartialEq, Eq)]
pub enum Needed {
    /// More is needed, and how much is not known.
    Unknown,
    /// The parser needs up to this number of further units.
    Size(NonZeroUsize),
}

impl Needed {
    ghost use Rattle.streams.specs.Needed.{need_of, need_of_count};
    ghost use Rattle.streams.specs.declared.needed.Needed.TheVariants.{Size, Unknown};

    /// A need of `missing` units, or an unknown one where that is 0.
    pub fn new(missing: usize) -> Needed
        ensures { need_of result ≡ need_of_count missing }
    {
        match NonZeroUsize::new(missing) {
            Some(size) => Needed::Size(size),
            None => Needed::Unknown,
        }
    }

    /// Whether the number of units is known.
    pub fn is_known(&self) -> bool
        ensures { IsTrue result ↔ IsSome (need_of self.now) }
    {
        match self {
            Needed::Unknown => false,
            Needed::Size(_) => true,
        }
    }

    /// The need whose number of units is that which `map` returns for this one's. It is unknown if
    /// this one is, or if `map` returns 0.
    ///
    /// ```
    /// assert_eq!(rt; Needed::new(2).map(|size| size.get() + 1), Needed::new(3));
    /// assert!(rt; !Needed::Unknown.map(|size| size.get()).is_known());
    /// ```
    pub fn map<F: Fn(NonZeroUsize) -> usize>(self, map: F) -> Needed
        requires { F.IsAlwaysCallable map }
        ensures unknown { self ≡ Unknown → result ≡ Unknown }
        ensures known { (size : _) → self ≡ Size size
            → (count : ℕ) × F.post map size count × (need_of result ≡ need_of_count count) }
    {
        match self {
            Needed::Unknown => Needed::Unknown,
            Needed::Size(size) => Needed::new(map(size)),
        }
    }
}
