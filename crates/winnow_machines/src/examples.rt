//! A frame with a length, as a parser.
ghost use Rattle.std.specs.Prelude.{◌≡◌, true};
ghost use Rattle.machines.specs.Examples.{FrameText};
ghost use Rattle.stream_errors.specs.Form.{answer_by};
ghost use Rattle.winnow_machines.specs.Read.{WordRead};

use crate::word::{WordParser, word};
use machines::counted::Counted;
use machines::digits::{Decimal, Numeral};
use machines::seq::Seq;
use machines::sets::Byte;
use stream_errors::empty::EmptyError;
use stream_errors::has_kind::HasKind;
use stream_errors::mode::ErrMode;
use streams::partial::Partial;
use streams::stream::Stream;
use winnow_core::parser::Parser;

/// Bytes of which more may come.
type Bytes = Partial<&'static [u8]>;

/// Errors with a mode.
type Error = ErrMode<EmptyError>;

/// The length of the data, a colon, the data, and a comma.
type Frame = Seq<Counted<Numeral<Decimal, Byte>>, Byte>;

/// Parses the frame at the start of partial input: the length of its data in decimal digits, at
/// most 4096, a colon, the data, and a comma. Returns it as a slice.
///
/// It returns `Incomplete` if and only if some longer input starts with a frame, and backtracks
/// otherwise. Every longer input gets the same result.
///
/// ```
/// use winnow::stream::Partial;
/// use winnow_machines::examples::read_frame;
///
/// let mut input = Partial::new(b"5:hello,2:no,".as_slice());
/// assert_eq!(rt; read_frame(&mut input), Ok(b"5:hello,".as_slice()));
/// assert_eq!(rt; *input.as_inner(), b"2:no,".as_slice());
/// let mut input = Partial::new(b"5:hel".as_slice());
/// assert!(rt; matches!(read_frame(&mut input), Err(ErrMode::Incomplete(_))));
/// ```
pub fn read_frame(input: &mut Bytes) -> Result<&'static [u8], Error>
    requires is_partial { (⟦<Bytes as Stream>⟧.view input.old).status.cut ≡ true }
    ensures read { WordRead ⟦<Bytes as Stream>⟧.reading FrameText
        (⟦<Bytes as Stream>⟧.view input.old).left.tokens
        (answer_by ⟦<Error as HasKind>⟧.kind result)
        (⟦<Bytes as Stream>⟧.view input.new).left.tokens }
{
    let length = Numeral {
        radix: Decimal,
        limit: 4096,
        mark: Byte(b':'),
    };
    let mut frame: WordParser<Frame, Bytes, Error> = word(Seq(Counted(length), Byte(b',')));
    frame.parse_next(input)
}
