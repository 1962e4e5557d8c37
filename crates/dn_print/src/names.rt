//! The text of a name and of a list of names.

ghost use Rattle.std.specs.Prelude.{◌≡◌, ◌<◌, ◌++◌, length, nat_lt, IfOk, OnOk, IsTrue, is_ok};
ghost use Rattle.std.specs.String.{string_bytes};
ghost use Rattle.dn_kind.specs.Terms.{are_there};
ghost use Rattle.dn_print.specs.Terms.{Appended, name_text, names_text};

use crate::OutOfMemory;
use crate::address::write_at;
use crate::joined::Item;
use dn_net::names::Names;
use dn_net::net::Net;
use dn_net::node::Name;
use std::alloc::Global;

/// The names joined by `, `, or `nothing` where there are none, without a line end. `Err` is want
/// of memory.
pub fn names_text(alloc: Global, net: &Net, names: &Names) -> Result<Vec<u8>, OutOfMemory>
    requires { IsTrue (are_there (length net.now) names.now) }
    ensures { IfOk result (λ v. v.items ≡ names_text net.now names.now) }
{
    let text = names_string(alloc, net, names.list())?;
    Ok(text.into_bytes())
}

/// Appends the names as [`names_text`] has them. For want of memory nothing is appended.
pub fn push_names(out: &mut String, net: &Net, names: &[Name]) -> Result<(), OutOfMemory>
    requires { IsTrue (are_there (length net.now) names.now) }
    ensures { Appended (string_bytes out.old) (string_bytes out.new) (is_ok result)
        (names_text net.now names.now) }
{
    let alloc = *out.allocator();
    let text = names_string(alloc, net, names)?;
    out.push_str(text.as_str())
}

/// Appends a name: the node's full name, `@` and the address in hexadecimal. For want of memory
/// nothing is appended.
pub fn push_name(out: &mut String, net: &Net, name: Name) -> Result<(), OutOfMemory>
    requires { name.node < length net.now }
    ensures { Appended (string_bytes out.old) (string_bytes out.new) (is_ok result)
        (name_text net.now name) }
{
    let mut text = String::new(*out.allocator());
    name.write(&mut text, net)?;
    out.push_str(text.as_str())
}

/// The names as [`names_text`] has them.
fn names_string(alloc: Global, net: &Net, names: &[Name]) -> Result<String, OutOfMemory>
    requires { IsTrue (are_there (length net.now) names.now) }
    ensures { IfOk result (λ text. string_bytes text ≡ names_text net.now names.now) }
{
    let mut out = String::new(alloc);
    write_names(&mut out, net, names)?;
    Ok(out)
}

/// Appends the names to a text that is given up for want of memory.
fn write_names(out: &mut String, net: &Net, names: &[Name]) -> Result<(), OutOfMemory>
    requires { IsTrue (are_there (length net.now) names.now) }
    ensures { OnOk result (string_bytes out.new ≡
        string_bytes out.old ++ names_text net.now names.now) }
{
    let [first, rest @ ..] = names else {
        return out.push_str("nothing");
    };
    first.write(out, net)?;
    for name in rest {
        out.push_str(", ")?;
        name.write(out, net)?;
    }
    Ok(())
}

/// The full name of its node, `@` and its address in hexadecimal.
impl Item for Name {
    ghost text = { λ net x. name_text net x };

    ghost within = { λ count x. nat_lt x.node count };

    fn write(&self, out: &mut String, net: &Net) -> Result<(), OutOfMemory> {
        out.push_str(net.text(self.node))?;
        write_at(out, self.addr)
    }
}
