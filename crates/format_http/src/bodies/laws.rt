//! Theorems about the lengths of bodies, and about lists of transfer codings.
#![tactic(auto)]

ghost use Rattle.format_http.specs.Bodies.Codings.{AreParts, IsPart};
ghost use Rattle.format_http.specs.Bodies.Framing.{Answer, IsBodyLength};
ghost use Rattle.format_http.specs.Bodies.Lists.{quoted_parts_of};
ghost use Rattle.format_http.specs.Heads.Head.{Pair};
ghost use Rattle.format_http.specs.declared.bodies.framing.Message.{Message};
ghost use Rattle.std.specs.List.{AllByRecursion};
ghost use Rattle.std.specs.Prelude.{◌≡◌, List, ℕ};

/// Proves that a message has at most one body length, or one error: the rules of section 6.3 of RFC
/// 9112 give at most one result. [`body_length`](crate::bodies::framing::body_length) shows that
/// they give one for each message.
///
/// ```
/// use format_http::bodies::laws;
///
/// laws::a_message_has_one_body_length();
/// ```
pub fn a_message_has_one_body_length()
    ensures { (message : Message) (major minor : ℕ) (fields : List Pair) (one other : Answer)
        → IsBodyLength message major minor fields one
        → IsBodyLength message major minor fields other → one ≡ other }
{}

/// Proves that the commas outside quoted strings divide a list, and that no other commas divide it
/// into transfer codings (RFC 9110, sections 5.6.1 and 10.1.4): into parts of which each is a
/// coding, or empty, with optional whitespace around it.
///
/// ```
/// use format_http::bodies::laws;
///
/// laws::a_list_has_one_division_into_codings();
/// ```
pub fn a_list_has_one_division_into_codings()
    ensures divides { (list : List ℕ) → AreParts (quoted_parts_of list) list }
    ensures one { (list : List ℕ) (parts : List (List ℕ)) → AreParts parts list
        → AllByRecursion IsPart parts → parts ≡ quoted_parts_of list }
{}
