//! Laws that follow from the contracts.

ghost use Rattle.std.specs.Prelude.{◌≡◌, List, ℕ};
ghost use Rattle.format_ini.specs.Documents.{IsDocument, IsRefused};
ghost use Rattle.format_ini.specs.Lines.{Said};
ghost use Rattle.format_ini.specs.declared.documents.InvalidLine.{InvalidLine};

use crate::dialect::Dialect;

/// A text is one document of a dialect at most. So the document that is read is the one that it is.
pub fn a_text_is_one_document(dialect: Dialect)
    ensures { (text : List ℕ) (said others : List Said) → IsDocument dialect text said
        → IsDocument dialect text others → said ≡ others }
{}

/// States that a rejected text is not a document of the dialect.
pub fn a_refused_text_is_none(dialect: Dialect)
    ensures { (text : List ℕ) (fault : InvalidLine) (said : List Said)
        → IsRefused dialect text fault → IsDocument dialect text said → ⊥ }
{}
