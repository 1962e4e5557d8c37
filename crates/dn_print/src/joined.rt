//! Texts of several items, with a mark between each two.

ghost use Rattle.std.specs.Prelude.{◌≡◌, ◌++◌, length, OnOk, IsTrue};
ghost use Rattle.std.specs.List.{list_all};
ghost use Rattle.std.specs.String.{string_bytes};
ghost use Rattle.dn_print.specs.Terms.{joined_texts};

use crate::OutOfMemory;
use dn_net::net::Net;

/// What a text can show, by the names of a net's nodes.
pub trait Item {
    ghost use Rattle.std.specs.Prelude.{ℕ, Bool, List, ◌≡◌, ◌++◌, length, OnOk, IsTrue};
    ghost use Rattle.std.specs.String.{string_bytes};
    ghost use Rattle.dn_net.specs.declared.node.NodeDecl.{NodeDecl};

    /// Its text.
    ghost text: { List NodeDecl → Self → List ℕ };
    /// Whether each node that it names is one of so many.
    ghost within: { ℕ → Self → Bool };

    /// Appends it to a text that is given up for want of memory.
    fn write(&self, out: &mut String, net: &Net) -> Result<(), OutOfMemory>
        requires { IsTrue (within (length net.now) self.now) }
        ensures { OnOk result (string_bytes out.new ≡
            string_bytes out.old ++ text net.now self.now) };
}

/// Appends the items with a mark between each two, to a text that is given up for want of memory.
pub fn write_joined<T: Item>(
    out: &mut String,
    net: &Net,
    mark: &str,
    items: &[T],
) -> Result<(), OutOfMemory>
    requires { IsTrue (list_all (T.within (length net.now)) items.now) }
    ensures { OnOk result (string_bytes out.new ≡
        string_bytes out.old ++ joined_texts mark.now (T.text net.now) items.now) }
{
    let [first, rest @ ..] = items else {
        return Ok(());
    };
    first.write(out, net)?;
    for item in rest {
        out.push_str(mark)?;
        item.write(out, net)?;
    }
    Ok(())
}
