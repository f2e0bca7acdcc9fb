//! Laws of the formats, each proved by a function that does nothing.
ghost use Rattle.std.specs.Prelude.{◌≡◌, ℕ, List};
ghost use Rattle.readers.specs.Document.{Part, IsDocument};

/// A text is a document of sections and pairs in at most one way.
#[tactic(auto, using(crate::proofs::DocumentLemmas::one_document))]
pub fn a_document_is_one_list_of_parts()
    ensures { (parts others : List Part) (input : List ℕ) → IsDocument input parts
        → IsDocument input others → parts ≡ others }
{}
