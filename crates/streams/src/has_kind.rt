//! The kinds of errors, on which contracts depend.
ghost use Rattle.streams.specs.Kind.{ErrorForm, Kind};

/// An error with a kind, on which contracts depend.
///
/// It is a supertrait of the traits that make and change errors, so that a bound on several of them
/// refers to one kind, and a stream that records errors shows their kinds. It has no functions: an
/// error type defines the kind of each of its values, and which kinds it has at all.
///
/// ```
/// fn kind_of<E: HasKind + ParserError<&'static str>>(error: &E) -> bool {
///     error.is_memory()
/// }
///
/// assert!(rt; !kind_of(&ErrMode::Cut(EmptyError::from_input(&"a"))));
/// // The kind of the inner error goes before that of the mode.
/// assert!(rt; kind_of(&ErrMode::Cut(EmptyError::no_memory(&"a"))));
/// ```
pub trait HasKind {
    // The kind of an error.
    ghost kind: { Self → Kind };

    // Whether the type has all kinds, or only backtrack and memory.
    ghost form: { ErrorForm };
}
