//! Literals without regard to ASCII case.
ghost use Rattle.std.specs.Prelude.{◌≡◌};

/// A literal that is compared without regard to the case of ASCII letters. Other letters differ
/// from theirs in another case.
///
/// ```
/// assert_eq!(rt; b"HeLLo!".as_slice().compare(Caseless("hello")), CompareResult::Ok(5));
/// assert_eq!(rt; "É".compare(Caseless("é")), CompareResult::Error);
/// ```
#[derive(Clone, Copy, Debug)]
pub struct Caseless<T>(pub T);

impl<'a> Caseless<&'a str> {
    /// The literal as its bytes, without regard to case too.
    ///
    /// ```
    /// assert_eq!(rt; Caseless("é").as_bytes().0, [0xC3, 0xA9].as_slice());
    /// ```
    #[inline(always)]
    pub fn as_bytes(&self) -> Caseless<&'a [u8]>
        ensures { result.0.now ≡ self.now.0.now }
    {
        Caseless(self.0.as_bytes())
    }
}
