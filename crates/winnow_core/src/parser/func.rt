//! Closures as parsers.
ghost use Rattle.std.specs.Fn.{CalledAtMut};
ghost use Rattle.parser_definitions.specs.Func.{FuncDoes, FuncWithDoes, beside};
ghost use Rattle.parser_definitions.specs.Terms.{no_claim, nothing_claimed};
ghost use Rattle.winnow_core.specs.Functions.{func_lawful, func_terms};
ghost use Rattle.winnow_core.specs.Func.{CalledWithMut, LeavesEndsFrom};

use crate::parser::Parser;
use stream_errors::parser_error::ParserError;
use streams::stream::Stream;

/// A parser that calls a closure.
///
/// Every call must leave a suffix of its input, from the current state of the closure and from
/// every state that its calls lead to (`LeavesEndsFrom`). Any further requirement is in the
/// caller's own clause. `leaves_always` and `leaves_within` in `specs/Func.antt` prove this for
/// closures that leave a suffix in every state, and for a set of states that calls preserve.
///
/// Its definition allows the outcomes of the calls. The premise is that state and input determine
/// each call, and that none on complete input is incomplete. It is stable if longer inputs keep
/// final results. Both are in `specs/Functions.antt`.
///
/// A plain function needs one clause, over bytes, or over any stream if it is used at one:
///
/// ```
/// ghost use Rattle.streams.specs.Bytes.{bytes_input, bytes_reading};
/// ghost use Rattle.streams.specs.Input.{IsEndOf};
///
/// fn word<'i>(input: &mut &'i [u8]) -> Result<u8, EmptyError>
///     ensures { IsEndOf bytes_reading (bytes_input input.new.now) (bytes_input input.old.now) }
/// {
///     b'a'.parse_next(input)
/// }
///
/// fn nothing_of<I: Stream, E: ParserError<I>>(input: &mut I) -> Result<(), E>
///     ensures { IsEndOf I.reading (I.view input.new) (I.view input.old) }
/// {
///     ().parse_next(input)
/// }
///
/// assert_eq!(rt; Func(word).parse_peek(b"ab".as_slice()), Ok((b"b".as_slice(), b'a')));
/// let mut nothing = Func(nothing_of::<&[u8], EmptyError>);
/// assert_eq!(rt; nothing.parse_peek(b"ab".as_slice()), Ok((b"ab".as_slice(), ())));
/// let mut closure = Func(|input: &mut &[u8]| b'a'.parse_next(input));
/// let answer: Result<(&[u8], u8), EmptyError> = closure.parse_peek(b"ab".as_slice());
/// assert_eq!(rt; answer, Ok((b"b".as_slice(), b'a')));
/// ```
#[derive(Clone, Copy, Drop)]
pub struct Func<F>(pub F);

impl<F: FnMut(&mut I) -> Result<O, E>, I: Stream, O, E: ParserError<I>> Parser<I, O, E>
    for Func<F> {
    ghost can_parse = { λ s. F.IsAlwaysCallable s.0
        × LeavesEndsFrom I.reading I.view (CalledAtMut F.FnMut) s.0 };

    ghost State = { F };

    ghost state = { λ s. s.0 };

    ghost does = { FuncDoes I.view E.kind (CalledAtMut F.FnMut) };

    ghost terms = { func_terms I.view E.kind (CalledAtMut F.FnMut)
        (λ _. no_claim) };

    ghost lawful = { record {
      law = λ is. func_lawful I.view E.kind is;
      claimed = λ _. nothing_claimed;
    } };

    #[inline(always)]
    fn parse_next(&mut self, input: &mut I) -> Result<O, E> {
        (self.0)(input)
    }
}

/// A parser that runs the caller's function at an argument, as an allocator: each run calls it
/// once, at a copy of the argument. The function owes what that of a [`Func`] owes.
///
/// A closure whose output borrows from the input is refused, and this takes the function itself:
///
/// ```
/// ghost use Rattle.streams.specs.Bytes.{bytes_input, bytes_reading};
/// ghost use Rattle.streams.specs.Input.{IsEndOf};
///
/// fn marked<'i>(mark: u8, input: &mut &'i [u8]) -> Result<&'i [u8], EmptyError>
///     ensures { IsEndOf bytes_reading (bytes_input input.new.now) (bytes_input input.old.now) }
/// {
///     mark.take().parse_next(input)
/// }
///
/// let mut word = FuncWith(b'a', marked);
/// assert_eq!(rt; word.parse_peek(b"ab".as_slice()), Ok((b"b".as_slice(), b"a".as_slice())));
/// ```
#[derive(Clone, Copy, Drop)]
pub struct FuncWith<A, F>(pub A, pub F);

impl<A: Copy, F: FnMut(A, &mut I) -> Result<O, E>, I: Stream, O, E: ParserError<I>> Parser<I, O, E>
    for FuncWith<A, F> {
    ghost can_parse = { λ s. F.IsAlwaysCallable s.1
        × LeavesEndsFrom I.reading I.view (CalledWithMut F.FnMut s.0) s.1 };

    ghost State = { A × F };

    ghost state = { λ s. (s.0, s.1) };

    ghost does = { FuncWithDoes I.view E.kind (CalledWithMut F.FnMut) };

    ghost terms = { func_terms I.view E.kind (beside (CalledWithMut F.FnMut))
        (λ _. no_claim) };

    ghost lawful = { record {
      law = λ is. func_lawful I.view E.kind is;
      claimed = λ _. nothing_claimed;
    } };

    #[inline(always)]
    fn parse_next(&mut self, input: &mut I) -> Result<O, E> {
        (self.1)(self.0, input)
    }
}
