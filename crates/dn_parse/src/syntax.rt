//! The tree of a text of the whole language. Its words are pieces of the text.

use crate::few::Few;
use crate::script::Script;
use dn_base::items::Items;

/// A text: its statements before `begin`, and its commands.
#[derive(Drop)]
pub struct Tree<'a> {
    pub body: Body<'a>,
    pub commands: Script<'a>,
}

/// The statements of a text, of a module or of a loop, in their order.
pub type Body<'a> = Vec<Stmt<'a>>;

/// A statement, with the line of its first token, counted from 1.
#[derive(Drop)]
pub enum Stmt<'a> {
    Decl {
        line: u32,
        decl: Decl<'a>,
    },
    Module {
        line: u32,
        title: &'a str,
        params: Items<Param<'a>>,
        body: Body<'a>,
    },
    Instance {
        line: u32,
        title: &'a str,
        args: Items<Arg<'a>>,
        prefix: Box<NameExpr<'a>>,
    },
    Loop {
        line: u32,
        variable: &'a str,
        from: Box<Expr<'a>>,
        upto: Box<Expr<'a>>,
        body: Body<'a>,
    },
}

/// The declaration of a node or of a unit. A node without parts has no `spec`.
#[derive(Drop)]
pub enum Decl<'a> {
    Node {
        role: DeclRole,
        name: NameExpr<'a>,
        spec: Option<Box<Spec<'a>>>,
    },
    Unit(Box<UnitExpr<'a>>),
}

/// The parts of a unit.
#[derive(Drop)]
pub struct UnitExpr<'a> {
    pub name: NameExpr<'a>,
    pub kind: &'a str,
    pub page: Expr<'a>,
    pub slots: Expr<'a>,
    pub reach: Expr<'a>,
    pub ports: Items<NameExpr<'a>>,
}

/// What a node is declared as.
#[derive(Clone, Copy, Debug, PartialEq, Eq)]
pub enum DeclRole {
    Plain,
    Agent,
    Vectors,
}

/// The parts of a node, of which each may be left out, but not all.
#[derive(Drop)]
pub struct Spec<'a> {
    pub accepts: Items<BlockExpr<'a>>,
    pub entries: Items<EntryExpr<'a>>,
    pub over: Option<NameExpr<'a>>,
}

/// A parameter of a module: a number or a node.
#[derive(Drop)]
pub enum Param<'a> {
    Num(&'a str),
    Node(&'a str),
}

/// An argument of a `use`.
#[derive(Drop)]
pub enum Arg<'a> {
    Num(Expr<'a>),
    Node(NameExpr<'a>),
}

/// A name: its parts, of which there is one or more.
pub type NameExpr<'a> = Few<PartExpr<'a>>;

/// A part of a name, with its index where it has one.
#[derive(Drop)]
pub struct PartExpr<'a> {
    pub title: &'a str,
    pub index: Option<Box<Expr<'a>>>,
}

/// A block: one expression is its first and its last address.
#[derive(Drop)]
pub struct BlockExpr<'a> {
    pub lo: Expr<'a>,
    pub hi: Option<Expr<'a>>,
}

/// A map entry, with one to eight destinations.
#[derive(Drop)]
pub struct EntryExpr<'a> {
    pub block: BlockExpr<'a>,
    pub dests: Items<DestExpr<'a>>,
}

/// A destination; with no address it is that of the block.
#[derive(Drop)]
pub struct DestExpr<'a> {
    pub name: NameExpr<'a>,
    pub addr: Option<Expr<'a>>,
}

/// An expression. A sum or a product has two members or more.
#[derive(Drop)]
pub enum Expr<'a> {
    Number(u64),
    Variable(&'a str),
    Sum(Vec<Expr<'a>>),
    Product(Vec<Expr<'a>>),
    Minus(Box<Expr<'a>>, Box<Expr<'a>>),
}

/// A command, with the line of its first token, counted from 1.
#[derive(Drop)]
pub struct Cmd<'a> {
    pub line: u32,
    pub order: Order<'a>,
}

/// What a command asks for.
#[derive(Drop)]
pub enum Order<'a> {
    Resolve(NameExpr<'a>, Expr<'a>, Mode),
    Lookup(NameExpr<'a>, Expr<'a>, Mode),
    View(NameExpr<'a>, Mode),
    Grant(Box<GrantExpr<'a>>),
    Route(Box<RouteExpr<'a>>),
    Revoke(&'a str),
    Dump,
    Split,
    Absorb(NameExpr<'a>),
    Radix {
        node: NameExpr<'a>,
        pool: Expr<'a>,
    },
    Gather {
        agent: NameExpr<'a>,
        pieces: Items<PieceExpr<'a>>,
        mode: Mode,
    },
}

/// A piece of memory that a gather asks for: addresses of a node. There are one to eight.
#[derive(Drop)]
pub struct PieceExpr<'a> {
    pub id: &'a str,
    pub node: NameExpr<'a>,
    pub base: Expr<'a>,
    pub size: Expr<'a>,
}

/// What a grant asks for: that an agent reaches addresses of a node.
#[derive(Drop)]
pub struct GrantExpr<'a> {
    pub id: &'a str,
    pub agent: NameExpr<'a>,
    pub node: NameExpr<'a>,
    pub base: Expr<'a>,
    pub size: Expr<'a>,
    pub mode: Mode,
}

/// What a route asks for: that a line of an agent is sent to a node.
#[derive(Drop)]
pub struct RouteExpr<'a> {
    pub id: &'a str,
    pub agent: NameExpr<'a>,
    pub line: Expr<'a>,
    pub node: NameExpr<'a>,
}

/// The access that a command says. `Unsaid` is reading, and in a grant both reading and writing.
#[derive(Clone, Copy, Debug, PartialEq, Eq)]
pub enum Mode {
    Unsaid,
    Read,
    Write,
}
