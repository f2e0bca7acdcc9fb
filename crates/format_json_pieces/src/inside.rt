//! State machines for the bytes inside a string, a number and a word.
ghost use Rattle.format_json_pieces.specs.Inside.{continues_number, escape_behind, expected_letter};
ghost use Rattle.format_json_pieces.specs.Inside.{figure_behind, is_escaped_byte, is_hex_digit};
ghost use Rattle.format_json_pieces.specs.Inside.{is_high_surrogate_digit, is_low_surrogate_digit};
ghost use Rattle.format_json_pieces.specs.Inside.{lead_behind, letters_behind, may_be_last};
ghost use Rattle.format_json_pieces.specs.Inside.{part_behind, part_if, plain_behind, tail_behind};
ghost use Rattle.std.specs.Prelude.{◌≡◌};

/// The input that is expected next in a string.
#[derive(Clone, Copy, Drop)]
pub enum Part {
    /// Any character, or the last quote.
    Plain,
    /// The character after a backslash.
    Escape,
    /// The first of four hexadecimal digits.
    Unit,
    /// The second, where the first is a D: the unit may be a surrogate.
    AfterSurrogateD,
    /// Three digits more.
    Three,
    /// Two digits more.
    Two,
    /// One digit more.
    One,
    /// Two digits more of the first surrogate of a pair.
    HighTwo,
    /// One digit more of it.
    HighOne,
    /// The backslash before the second surrogate.
    Backslash,
    /// The u after it.
    LetterU,
    /// The first digit of it, a D.
    LowD,
    /// The second digit, C to F.
    LowSecond,
    /// One byte more of a character.
    TailOne,
    /// Two bytes more.
    TailTwo,
    /// Three bytes more.
    TailThree,
    /// Two more bytes; the first excludes numbers that two bytes can encode.
    TailLong,
    /// Two more bytes; the first excludes surrogates.
    TailScalar,
    /// Three more bytes; the first excludes numbers that three bytes can encode.
    TailLonger,
    /// Three more bytes; the first excludes numbers that are larger than any character.
    TailLast,
}

/// The effect of a byte of a string.
#[derive(Clone, Copy, Drop)]
pub(crate) enum Inner {
    /// No string has it there.
    Broken,
    /// It is the last quote.
    Quote,
    /// The string continues.
    Part(Part),
}

/// Whether the byte is a hexadecimal digit.
fn is_hex(byte: u8) -> bool
    ensures { result ≡ is_hex_digit byte }
{
    (b'0' <= byte && byte <= b'9')
        || (b'A' <= byte && byte <= b'F')
        || (b'a' <= byte && byte <= b'f')
}

/// Whether the byte is the second digit of the first surrogate of a pair: 8, 9, A or B.
fn is_high(byte: u8) -> bool
    ensures { result ≡ is_high_surrogate_digit byte }
{
    byte == b'8' || byte == b'9' || byte == b'A' || byte == b'B' || byte == b'a' || byte == b'b'
}

/// Whether the byte is the second digit of the second surrogate of a pair: C, D, E or F.
fn is_low(byte: u8) -> bool
    ensures { result ≡ is_low_surrogate_digit byte }
{
    (b'C' <= byte && byte <= b'F') || (b'c' <= byte && byte <= b'f')
}

/// Whether a backslash and the byte stand for a character.
fn is_short(byte: u8) -> bool
    ensures { result ≡ is_escaped_byte byte }
{
    byte == b'"'
        || byte == b'\\'
        || byte == b'/'
        || byte == b'b'
        || byte == b'f'
        || byte == b'n'
        || byte == b'r'
        || byte == b't'
}

/// Returns what is expected after the first byte of a character that is not ASCII.
fn lead_behind(byte: u8) -> Inner
    ensures { result ≡ lead_behind byte }
{
    if byte < 194 {
        Inner::Broken
    } else if byte < 224 {
        Inner::Part(Part::TailOne)
    } else if byte == 224 {
        Inner::Part(Part::TailLong)
    } else if byte == 237 {
        Inner::Part(Part::TailScalar)
    } else if byte < 240 {
        Inner::Part(Part::TailTwo)
    } else if byte == 240 {
        Inner::Part(Part::TailLonger)
    } else if byte < 244 {
        Inner::Part(Part::TailThree)
    } else if byte == 244 {
        Inner::Part(Part::TailLast)
    } else {
        Inner::Broken
    }
}

/// This part where the test holds.
fn part_where(test: bool, part: Part) -> Inner
    ensures { result ≡ part_if test part }
{
    if test {
        Inner::Part(part)
    } else {
        Inner::Broken
    }
}

/// Returns the effect of a byte where any character is accepted.
fn plain_behind(byte: u8) -> Inner
    ensures { result ≡ plain_behind byte }
{
    if byte == b'"' {
        Inner::Quote
    } else if byte == b'\\' {
        Inner::Part(Part::Escape)
    } else if byte < 32 {
        Inner::Broken
    } else if byte < 128 {
        Inner::Part(Part::Plain)
    } else {
        lead_behind(byte)
    }
}

/// Returns the effect of a byte after a backslash.
fn escape_behind(byte: u8) -> Inner
    ensures { result ≡ escape_behind byte }
{
    if byte == b'u' {
        Inner::Part(Part::Unit)
    } else {
        part_where(is_short(byte), Part::Plain)
    }
}

/// Returns the effect of a byte in a character that is not ASCII.
fn tail_behind(part: Part, byte: u8) -> Inner
    ensures { result ≡ tail_behind part byte }
{
    match part {
        Part::TailOne => part_where(128 <= byte && byte < 192, Part::Plain),
        Part::TailTwo => part_where(128 <= byte && byte < 192, Part::TailOne),
        Part::TailThree => part_where(128 <= byte && byte < 192, Part::TailTwo),
        Part::TailLong => part_where(160 <= byte && byte < 192, Part::TailOne),
        Part::TailScalar => part_where(128 <= byte && byte < 160, Part::TailOne),
        Part::TailLonger => part_where(144 <= byte && byte < 192, Part::TailTwo),
        Part::TailLast => part_where(128 <= byte && byte < 144, Part::TailTwo),
        _ => Inner::Broken,
    }
}

/// The effect of a byte of a string.
pub(crate) fn part_behind(part: Part, byte: u8) -> Inner
    ensures { result ≡ part_behind part byte }
{
    match part {
        Part::Plain => plain_behind(byte),
        Part::Escape => escape_behind(byte),
        Part::Unit if byte == b'D' || byte == b'd' => Inner::Part(Part::AfterSurrogateD),
        Part::Unit => part_where(is_hex(byte), Part::Three),
        Part::AfterSurrogateD if is_high(byte) => Inner::Part(Part::HighTwo),
        Part::AfterSurrogateD => part_where(is_hex(byte) && !is_low(byte), Part::Two),
        Part::Three => part_where(is_hex(byte), Part::Two),
        Part::Two => part_where(is_hex(byte), Part::One),
        Part::One => part_where(is_hex(byte), Part::Plain),
        Part::HighTwo => part_where(is_hex(byte), Part::HighOne),
        Part::HighOne => part_where(is_hex(byte), Part::Backslash),
        Part::Backslash => part_where(byte == b'\\', Part::LetterU),
        Part::LetterU => part_where(byte == b'u', Part::LowD),
        Part::LowD => part_where(byte == b'D' || byte == b'd', Part::LowSecond),
        Part::LowSecond => part_where(is_low(byte), Part::Two),
        _ => tail_behind(part, byte),
    }
}

/// The part of a number that was read last.
#[derive(Clone, Copy, Drop)]
pub enum Figure {
    /// A minus.
    Minus,
    /// A zero before the point.
    Zero,
    /// Digits before the point, with no zero first.
    Whole,
    /// A point.
    Point,
    /// Digits after the point.
    Fraction,
    /// An E.
    Exponent,
    /// The sign of an exponent.
    Sign,
    /// The digits of an exponent.
    Power,
}

/// Whether a number may end there.
pub(crate) fn is_final(figure: Figure) -> bool
    ensures { result ≡ may_be_last figure }
{
    match figure {
        Figure::Zero | Figure::Whole | Figure::Fraction | Figure::Power => true,
        _ => false,
    }
}

/// Returns whether the byte can continue a number: a digit, a point or an E.
pub(crate) fn goes_on(byte: u8) -> bool
    ensures { result ≡ continues_number byte }
{
    (b'0' <= byte && byte <= b'9') || byte == b'.' || byte == b'E' || byte == b'e'
}

/// Returns the state of a number after one more byte, or `None` if the byte cannot continue it.
pub(crate) fn figure_behind(figure: Figure, byte: u8) -> Option<Figure>
    ensures { result ≡ figure_behind figure byte }
{
    let digit = b'0' <= byte && byte <= b'9';
    let e = byte == b'E' || byte == b'e';
    match figure {
        Figure::Minus if byte == b'0' => Some(Figure::Zero),
        Figure::Minus if digit => Some(Figure::Whole),
        Figure::Whole if digit => Some(Figure::Whole),
        Figure::Zero | Figure::Whole if byte == b'.' => Some(Figure::Point),
        Figure::Point | Figure::Fraction if digit => Some(Figure::Fraction),
        Figure::Zero | Figure::Whole | Figure::Fraction if e => Some(Figure::Exponent),
        Figure::Exponent if byte == b'+' || byte == b'-' => Some(Figure::Sign),
        Figure::Exponent | Figure::Sign | Figure::Power if digit => Some(Figure::Power),
        _ => None,
    }
}

/// Which letters of a word are to come.
#[derive(Clone, Copy, Drop)]
pub enum Letters {
    /// Those of `null` after the first.
    Ull,
    /// The last two of it.
    Ll,
    /// The last.
    L,
    /// Those of `true` after the first.
    Rue,
    /// The last two of it.
    Ue,
    /// The last, of `false` too.
    E,
    /// Those of `false` after the first.
    Alse,
    /// The last three of it.
    Lse,
    /// The last two.
    Se,
}

/// The first of these letters.
pub(crate) fn expected(letters: Letters) -> u8
    ensures { result ≡ expected_letter letters }
{
    match letters {
        Letters::Ull | Letters::Ue => b'u',
        Letters::Ll | Letters::L | Letters::Lse => b'l',
        Letters::Rue => b'r',
        Letters::E => b'e',
        Letters::Alse => b'a',
        Letters::Se => b's',
    }
}

/// The letters after the first of these.
pub(crate) fn letters_behind(letters: Letters) -> Option<Letters>
    ensures { result ≡ letters_behind letters }
{
    match letters {
        Letters::Ull => Some(Letters::Ll),
        Letters::Ll => Some(Letters::L),
        Letters::L | Letters::E => None,
        Letters::Rue => Some(Letters::Ue),
        Letters::Ue | Letters::Se => Some(Letters::E),
        Letters::Alse => Some(Letters::Lse),
        Letters::Lse => Some(Letters::Se),
    }
}
