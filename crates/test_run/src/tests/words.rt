//! The words by which the faults of a text are named.

use dn_parse::reader::ParseFault;
use dn_scope::fault::ExpandFault;
use dn_tool::compile::CompileFault;
use dn_tool::refusal::{Refusal, Rule};

#[test]
fn names_each_fault_of_a_text(rt: HostRuntime) {
    let alloc = rt.alloc();
    let refusal = Refusal::of_text(alloc, Rule::Length).expect(&rt, "memory");
    let (refused, memory) = (CompileFault::Refused(refusal), CompileFault::OutOfMemory);
    let words = format!(in alloc; "{refused} {memory}").expect(&rt, "memory");
    assert!(rt; words.as_str() == "Refused OutOfMemory");
}

#[test]
fn names_each_fault_of_an_expansion(rt: HostRuntime) {
    let alloc = rt.alloc();
    let line = 1;
    for (fault, word) in [
        (ExpandFault::Duplicate { line }, "Duplicate"),
        (ExpandFault::Unknown { line }, "Unknown"),
        (ExpandFault::Arguments { line }, "Arguments"),
        (ExpandFault::Value { line }, "Value"),
        (ExpandFault::TooMany { line, limit: 256 }, "TooMany"),
        (ExpandFault::OutOfMemory, "OutOfMemory"),
    ] {
        let words = format!(in alloc; "{fault}").expect(&rt, "memory");
        assert!(rt; words.as_str() == word);
    }
}

#[test]
fn names_each_fault_of_the_reader(rt: HostRuntime) {
    let alloc = rt.alloc();
    let line = 1;
    for (fault, word) in [
        (ParseFault::Length, "Length"),
        (ParseFault::Token { line }, "Token"),
        (ParseFault::Statement { line }, "Statement"),
        (ParseFault::Block { line }, "Block"),
        (ParseFault::Nesting { line }, "Nesting"),
        (ParseFault::OutOfMemory, "OutOfMemory"),
    ] {
        let words = format!(in alloc; "{fault}").expect(&rt, "memory");
        assert!(rt; words.as_str() == word);
    }
}
