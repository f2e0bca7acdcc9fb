//! The names that most users of parsers need.
pub use crate::{
    Func, FuncWith, ModalParser, ModalResult, Parser, RecoverableParser, RecoveringParser,
};
pub use stream_errors::modal::ModalError;
pub use stream_errors::parser_error::ParserError;
pub use stream_sets::range::Range;
pub use streams::stream::{Location, Stream, StreamIsPartial};
