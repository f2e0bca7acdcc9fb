//! Laws of heads and of their field lines.
#![tactic(auto)]

ghost use Rattle.format_http.specs.Heads.Bytes.{IsWhite};
ghost use Rattle.format_http.specs.Heads.FieldLine.{IsFieldLine};
ghost use Rattle.format_http.specs.Heads.Head.{AreFieldLines, IsHead, Pair, Request};
ghost use Rattle.format_http.specs.Responses.Head.{IsResponseHead, Status};
ghost use Rattle.format_http_chunked.specs.Bodies.{AreFields};
ghost use Rattle.std.specs.List.{All};
ghost use Rattle.std.specs.Prelude.{◌≡◌, ◌↔◌, ◌++◌, ◌∷◌, [], List, ℕ};

/// Proves that no byte before the first colon of a field line is whitespace. So
/// [`read_head`](crate::heads::head::read_head) reads no head with whitespace between the name of a
/// field and its colon, which a server must reject (RFC 9112, section 5.1).
pub fn no_white_space_stands_before_a_colon()
    ensures { (name value bytes rest front more : List ℕ) → IsFieldLine name value bytes rest
        → bytes ≡ front ++ 58 ∷ more → All (λ b. b ≡ 58 → ⊥) front
        → All (λ b. IsWhite b → ⊥) front }
{}

/// No name and no value of a field line has a carriage return (section 2.2).
pub fn no_return_stands_in_a_field()
    ensures { (name value bytes rest : List ℕ) → IsFieldLine name value bytes rest
        → All (λ b. b ≡ 13 → ⊥) name × All (λ b. b ≡ 13 → ⊥) value }
{}

/// Bytes begin with at most one head of a request: one request line, one list of fields, and one
/// rest.
///
/// ```
/// use format_http::heads::laws;
///
/// laws::bytes_begin_with_one_head_at_most();
/// ```
pub fn bytes_begin_with_one_head_at_most()
    ensures { (line other : Request) (fields others : List Pair) (bytes one two : List ℕ)
        → IsHead line fields bytes one → IsHead other others bytes two
        → (line ≡ other) × (fields ≡ others) × (one ≡ two) }
{}

/// Bytes begin with at most one head of a response: one status line, one list of fields, and one
/// rest.
///
/// ```
/// use format_http::heads::laws;
///
/// laws::bytes_begin_with_one_response_head_at_most();
/// ```
pub fn bytes_begin_with_one_response_head_at_most()
    ensures { (line other : Status) (fields others : List Pair) (bytes one two : List ℕ)
        → IsResponseHead line fields bytes one → IsResponseHead other others bytes two
        → (line ≡ other) × (fields ≡ others) × (one ≡ two) }
{}

/// The trailer section of a chunked body is field lines, and each text of field lines is one.
///
/// ```
/// use format_http::heads::laws;
///
/// laws::trailers_are_field_lines();
/// ```
pub fn trailers_are_field_lines()
    ensures { (trailers : List ℕ) → AreFields trailers
        ↔ ((fields : List Pair) × AreFieldLines fields trailers []) }
{}
