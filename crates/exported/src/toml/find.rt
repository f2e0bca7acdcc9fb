//! The node of a path of names.

ghost use Rattle.std.specs.Prelude.{◌≡◌, ◌⊎◌, ◌<◌, ◌≤◌, IfSome, None, length};
ghost use Rattle.exported.specs.Code.{done, end};
ghost use Rattle.exported.specs.Output.{slices_of};
ghost use Rattle.exported.specs.TomlFind.{FindsAlong, HasNoneAt, StandsAlong};

use crate::code::{DONE, END};
use crate::output::Bytes;
use format_toml_nodes::find::find_entry;
pub use format_toml_nodes::node::{Span, TomlNode, TomlValue};

/// Returns the number of the node along names.
fn find(text: &[u8], nodes: &[TomlNode], table: usize, names: &[Bytes]) -> Option<usize>
    ensures found { FindsAlong text.now nodes.now table (slices_of names.now) result }
    ensures within { IfSome result (λ at. at < length nodes.now) }
    ensures outside { length nodes.now ≤ table → result ≡ None }
{
    if table >= nodes.len() {
        return None;
    }
    let mut at = table;
    for name in names {
        match find_entry(text, nodes, at, name.bytes) {
            Some(found) => at = found,
            None => return None,
        }
    }
    Some(at)
}

/// Finds what a TOML document has at a path of names: the value of the key `server.port` along the
/// names `server` and `port`. `text` and `nodes` are those that `exported_toml_document` wrote for
/// it, with the sizes that it reported. The path starts in the node of number `table`; the first
/// node, of number 0, is the root table.
///
/// `DONE`: the number of the node is written. Without names it is `table`.
///
/// `END`: there is nothing at the path, or no node has the number `table`. 0 is written.
///
/// A call looks at each entry that precedes the one of each name in its table. In other nodes it
/// may find another node, or none.
///
/// # Safety
///
/// `text` must be valid for reads of `text_length` bytes, `nodes` for reads of `nodes_length`
/// entries, `names` for reads of `names_length` entries, and the bytes of each name for reads of
/// its length. They must not change during the call. `out` must be valid for writes of one number,
/// and must not overlap the others. The call needs 16 KiB of stack.
#[unsafe(no_mangle)]
pub extern "C" fn exported_toml_find(
    text: &[u8],
    nodes: &[TomlNode],
    table: usize,
    names: &[Bytes],
    out: &mut usize,
) -> u32
    ensures found { result ≡ done
        → StandsAlong text.now nodes.now table (slices_of names.now) out.new }
    ensures missing { result ≡ end
        → HasNoneAt text.now nodes.now table (slices_of names.now) × (out.new ≡ 0) }
    ensures within { result ≡ done → (out.new < length nodes.now) × (table < length nodes.now) }
    ensures codes { (result ≡ done) ⊎ (result ≡ end) }
{
    match find(text, nodes, table, names) {
        Some(at) => {
            *out = at;
            DONE
        }
        None => {
            *out = 0;
            END
        }
    }
}
