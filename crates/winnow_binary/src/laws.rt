//! Laws of the parsers, each proved by a function that does nothing.
