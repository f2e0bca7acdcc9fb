//! A macro. It has no contract: what it expands to is proved as if it were written out.

/// A struct or a tuple of the outputs of parsers, one after the other; `_` leaves an output out.
///
/// It expands to a tuple of the parsers and a [`map`](crate::Parser::map), so it has at most eleven
/// parsers, and has their grammar. A parser cannot name the output of an earlier one.
///
/// ```
/// use winnow::ascii::impls::DecUint;
/// use winnow::combinator::seq;
///
/// #[derive(Debug, PartialEq, Drop)]
/// struct Point {
///     x: u32,
///     y: u32,
/// }
///
/// fn read_point(input: &mut &str) -> ModalResult<Point> {
///     seq!(Point { _: '(', x: DecUint, _: ',', y: DecUint, _: ')' }).parse_next(input)
/// }
///
/// assert_eq!(rt; read_point(&mut "(1,2)"), Ok(Point { x: 1, y: 2 }));
/// let pair: ModalResult<(u32, u32)> = seq!(DecUint, _: '-', DecUint).parse_next(&mut "3-4");
/// assert_eq!(rt; pair, Ok((3, 4)));
/// ```
#[macro_export]
macro_rules! seq {
    (@fields ($($name:tt)+) [$($parser:expr,)*] [$($part:tt,)*] [$($field:ident,)*];) => {
        $crate::Parser::map(($($parser,)*), |($($part,)*)| $($name)+ { $($field,)* })
    };
    (@fields $name:tt [$($parser:expr,)*] [$($part:tt,)*] $fields:tt;
        _: $next:expr $(, $($rest:tt)*)?) => {
        $crate::seq!(@fields $name [$($parser,)* $next,] [$($part,)* _,] $fields; $($($rest)*)?)
    };
    (@fields $name:tt [$($parser:expr,)*] [$($part:tt,)*] [$($field:ident,)*];
        $this:ident: $next:expr $(, $($rest:tt)*)?) => {
        $crate::seq!(@fields $name [$($parser,)* $next,] [$($part,)* $this,] [$($field,)* $this,];
            $($($rest)*)?)
    };

    (@parts ($($name:tt)*) $free:tt [$($parser:expr,)*] [$($part:tt,)*] [$($output:ident,)+];) => {
        $crate::Parser::map(($($parser,)*), |($($part,)*)| $($name)* ($($output),+))
    };
    (@parts $name:tt $free:tt [$($parser:expr,)*] [$($part:tt,)*] $outputs:tt;
        _: $next:expr $(, $($rest:tt)*)?) => {
        $crate::seq!(@parts $name $free [$($parser,)* $next,] [$($part,)* _,] $outputs;
            $($($rest)*)?)
    };
    (@parts $name:tt [$this:ident $($free:ident)*] [$($parser:expr,)*] [$($part:tt,)*]
        [$($output:ident,)*]; $next:expr $(, $($rest:tt)*)?) => {
        $crate::seq!(@parts $name [$($free)*] [$($parser,)* $next,] [$($part,)* $this,]
            [$($output,)* $this,]; $($($rest)*)?)
    };

    ($($name:ident)::+ { $($field:tt)* }) => {
        $crate::seq!(@fields ($($name)::+) [] [] []; $($field)*)
    };
    ($($name:ident)::+ ( $($part:tt)* )) => {
        $crate::seq!(@parts ($($name)::+) [a b c d e f g h i j k] [] [] []; $($part)*)
    };
    ($($part:tt)+) => {
        $crate::seq!(@parts () [a b c d e f g h i j k] [] [] []; $($part)+)
    };
}
