//! Laws that follow from the contracts.
ghost use Rattle.format_toml.specs.Toml.{DocumentText};
ghost use Rattle.format_toml_document.specs.Alike.{AreAlikeItems};
ghost use Rattle.format_toml_document.specs.AlikeTrees.{AreAlikeTrees};
ghost use Rattle.format_toml_document.specs.Fault.{IsDocument, IsErrorOf, OneBegins};
ghost use Rattle.format_toml_document.specs.declared.fault.TomlError.{TomlError};
ghost use Rattle.format_toml_document.specs.declared.fault.TomlError.TheVariants as faults;
ghost use Rattle.format_toml_errors.specs.Stop.{IsAccepted, MayBegin};
ghost use Rattle.format_toml_tree.specs.Holds.{HoldsTree};
ghost use Rattle.format_toml_tree.specs.Runs.{Gives, Tree as Given, empty};
ghost use Rattle.format_toml_tree.specs.declared.roles.Reason.{Reason};
ghost use Rattle.format_toml_tree.specs.declared.tree.Tree.{Tree};
ghost use Rattle.format_toml_tree.specs.declared.value.Item.{Item};
ghost use Rattle.grammars.specs.Pairwise.{ArePairwise};
ghost use Rattle.std.specs.Prelude.{◌≡◌, ◌<◌, ◌^◌, ◌++◌, [], ℕ, List, Option, Result};
ghost use Rattle.std.specs.Prelude.{length, true};
ghost use Rattle.std.specs.Str.{IsUtf8, all_scalars};
ghost use Rattle.std.specs.declared.vec.Vec.{Vec};

use format_toml_errors::laws::each_prefix_is_completable;
use std::alloc::Allocator;

/// If valid UTF-8 has a tree, the only [`TomlError`] for it is that memory allocation failed: it is
/// lines, and no line is rejected.
///
/// ```
/// use format_toml_document::laws::a_document_is_lines_of_text;
/// use std::alloc::Allocator;
///
/// fn of_an_allocator<A: Allocator>() {
///     a_document_is_lines_of_text::<A>();
/// }
/// ```
pub fn a_document_is_lines_of_text<A: Allocator>()
    ensures { (level : ℕ) (bytes : List ℕ) (tree : Tree A) (fault : TomlError)
        → IsUtf8 bytes → IsDocument A level bytes tree → IsErrorOf A level bytes fault
        → fault ≡ faults.OutOfMemory }
{}

/// A text is one list of lines, whatever allocates them: the statements of the same text are
/// pairwise equivalent. They differ at most in where their strings and lists lie.
///
/// ```
/// use format_toml_document::laws::a_text_is_one_list_of_lines;
/// use std::alloc::Allocator;
///
/// fn of_an_allocator<A: Allocator>() {
///     a_text_is_one_list_of_lines::<A>();
/// }
/// ```
pub fn a_text_is_one_list_of_lines<A: Allocator>()
    ensures { (level : ℕ) (lines other : Vec (Item A) A) (text : List ℕ)
        → DocumentText level lines text → DocumentText level other text
        → ArePairwise (AreAlikeItems level) lines.items other.items }
{}

/// Bytes have one tree: two trees of the same bytes have equivalent contents at each path. They
/// differ at most in where their strings and lists lie.
///
/// ```
/// use format_toml_document::laws::a_text_has_one_tree;
/// use std::alloc::Allocator;
///
/// fn of_an_allocator<A: Allocator>() {
///     a_text_has_one_tree::<A>();
/// }
/// ```
pub fn a_text_has_one_tree<A: Allocator>()
    ensures { (level : ℕ) (bytes : List ℕ) (tree other : Tree A) (given also : Given A)
        → IsDocument A level bytes tree → IsDocument A level bytes other
        → HoldsTree tree.slots.items given → HoldsTree other.slots.items also
        → AreAlikeTrees given also }
{}

/// Lines give one tree, or one of them is rejected first, for one reason, and not both.
///
/// ```
/// use format_toml_document::laws::lines_give_one_tree_or_one_refusal;
/// use std::alloc::Allocator;
///
/// fn of_an_allocator<A: Allocator>() {
///     lines_give_one_tree_or_one_refusal::<A>();
/// }
/// ```
pub fn lines_give_one_tree_or_one_refusal<A: Allocator>()
    ensures { (level : ℕ) (lines : List (Item A))
        (one other : Result (Given A) (ℕ × Reason)) → Gives level (empty, []) 0 lines one
        → Gives level (empty, []) 0 lines other → one ≡ other }
{}

/// The walk of [`first_stop`](format_toml_errors::walk::first_stop) accepts each document: each of
/// its characters may occur where it does, and the text may end after them.
///
/// ```
/// use format_toml_document::laws::the_walk_accepts_documents;
/// use std::alloc::Allocator;
///
/// fn of_an_allocator<A: Allocator>() {
///     the_walk_accepts_documents::<A>();
/// }
/// ```
pub fn the_walk_accepts_documents<A: Allocator>()
    ensures { (level : ℕ) (lines : Vec (Item A) A) (text : List ℕ)
        → DocumentText level lines text → IsAccepted level text }
{}

/// The walk of [`first_stop`](format_toml_errors::walk::first_stop) accepts only documents: a text
/// that it accepts is the text of lines. The text is of characters that Unicode permits (no
/// surrogates), and of fewer than 2^60 of them, as strings and lists are bounded.
///
/// ```
/// use format_toml_document::laws::the_walk_accepts_only_documents;
/// use std::alloc::Allocator;
///
/// fn of_an_allocator<A: Allocator>() {
///     the_walk_accepts_only_documents::<A>();
/// }
/// ```
pub fn the_walk_accepts_only_documents<A: Allocator>()
    ensures { (level : ℕ) (alloc : A) (text : List ℕ) → all_scalars text ≡ true
        → length text < 2 ^ 60 → IsAccepted level text
        → (lines : Vec (Item A) A) × DocumentText level lines text }
{}

/// Characters that the walk of [`first_stop`](format_toml_errors::walk::first_stop) accepts at a
/// level begin a document of this level, if they are fewer than 2^58, and Unicode permits them. So
/// the walk stops at the first character with which no document continues.
///
/// ```
/// ghost use Rattle.format_toml_document.specs.Fault.{OneBegins};
/// ghost use Rattle.std.specs.Prelude.{◌∷◌, []};
/// use format_toml_document::laws::a_document_begins_with_accepted_characters;
/// use std::alloc::Allocator;
///
/// // Some document begins with `a=[`, by the clause of the law: `.ensures 1 alloc` of these
/// // characters, `refl`, `omega arith` and `(omega arith, tt)`.
/// fn an_array_may_be_open<A: Allocator>(alloc: A)
///     ensures { OneBegins A 1 (97 ∷ 61 ∷ 91 ∷ []) }
/// {
///     a_document_begins_with_accepted_characters::<A>();
/// }
/// ```
pub fn a_document_begins_with_accepted_characters<A: Allocator>()
    ensures { (level : ℕ) (alloc : A) (front : List ℕ) → all_scalars front ≡ true
        → length front < 2 ^ 58 → MayBegin level front → OneBegins A level front }
{
    each_prefix_is_completable();
}

/// Characters that the walk of [`first_stop`](format_toml_errors::walk::first_stop) rejects at a
/// level begin no document of this level. No continuation of them is the text of lines.
///
/// ```
/// use format_toml_document::laws::no_document_begins_otherwise;
/// use std::alloc::Allocator;
///
/// fn of_an_allocator<A: Allocator>() {
///     no_document_begins_otherwise::<A>();
/// }
/// ```
pub fn no_document_begins_otherwise<A: Allocator>()
    ensures { (level : ℕ) (front more : List ℕ) → (MayBegin level front → ⊥)
        → (lines : Vec (Item A) A) → DocumentText level lines (front ++ more) → ⊥ }
{}
