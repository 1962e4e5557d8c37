//! The blocks of a text while it is read: what is open, what stands where, and what is forbidden.

ghost use Rattle.std.specs.Prelude.{◌≡◌, List, map, IfOk};
ghost use Rattle.dn_parse.specs.Terms.{Item, before_begin, blocks_view, closed_block, declaration_view, declares, item_view, misplaced_view, no_blocks_yet, opener_view, opens_module, outside_blocks, param_view, statement_view, with_begin, with_frame, with_item, without_frame};
ghost use Rattle.dn_base.specs.Terms.{Answers};
ghost use Rattle.dn_parse.specs.declared.blocks.Misplaced.TheVariants.{OutOfMemory as no_memory};

use crate::cursor::Halt;
use crate::statements::Statement;
use crate::syntax::{Body, Decl, Expr, Param, Stmt};
use dn_base::items::Items;
use std::alloc::{AllocFailed, Global};
use std::mem;

/// What opens a block.
#[derive(Drop)]
pub enum Opener<'a> {
    Module {
        title: &'a str,
        params: Items<Param<'a>>,
    },
    Loop {
        variable: &'a str,
        from: Expr<'a>,
        upto: Expr<'a>,
    },
}

/// An open block: what opened it with its line, and the statements before it.
#[derive(Drop)]
pub struct Frame<'a> {
    pub line: u32,
    pub opener: Opener<'a>,
    pub before: Body<'a>,
}

/// What the statements before the commands came to.
#[derive(Drop)]
pub struct Blocks<'a> {
    /// The open blocks, the innermost last.
    pub frames: Vec<Frame<'a>>,
    /// The statements in the innermost block.
    pub body: Body<'a>,
    /// Whether `begin` was there.
    pub begun: bool,
}

/// Why a statement is not placed.
#[derive(Clone, Copy, Debug, PartialEq, Eq)]
pub enum Misplaced {
    /// It stands where it is forbidden.
    Forbidden,
    /// It opens a 17th block.
    Crowded,
    /// There was no memory.
    OutOfMemory,
}

impl<T: Drop> From<AllocFailed<T>> for Misplaced {
    ghost from_gives = { λ _ e. e ≡ no_memory };

    fn from(_error: AllocFailed<T>) -> Misplaced {
        Misplaced::OutOfMemory
    }
}

/// Why the statements are not all placed.
pub enum Trouble {
    Halted(Halt),
    /// A statement is misplaced, which begins in this line.
    Misplaced(Misplaced, u32),
}

/// The most blocks that may be open.
const MOST_BLOCKS: usize = 16;

/// A block that is closed, as one statement.
fn closed_block<'a>(
    alloc: Global,
    line: u32,
    opener: Opener<'a>,
    body: Body<'a>,
) -> Result<Stmt<'a>, AllocFailed<Expr<'a>>>
    ensures { IfOk result (λ s. (before : List Item) → item_view s ≡
        closed_block (record
        { line = line; opener = opener_view opener.entry; before = before })
        (map item_view body.entry.items)) }
{
    match opener {
        Opener::Module { title, params } => Ok(Stmt::Module {
            line,
            title,
            params,
            body,
        }),
        Opener::Loop {
            variable,
            from,
            upto,
        } => Ok(Stmt::Loop {
            line,
            variable,
            from: Box::new(alloc, from)?,
            upto: Box::new(alloc, upto)?,
            body,
        }),
    }
}

impl<'a> Blocks<'a> {
    /// No statement.
    pub fn none(alloc: Global) -> Blocks<'a>
        ensures { blocks_view result ≡ no_blocks_yet }
    {
        Blocks {
            frames: Vec::new(alloc),
            body: Vec::new(alloc),
            begun: false,
        }
    }

    /// Puts one statement more in the innermost block.
    fn put_item(&mut self, item: Stmt<'a>) -> Result<(), Misplaced>
        ensures { Answers (λ _. blocks_view self.new) misplaced_view result
            (with_item (blocks_view self.old) (item_view item.entry)) }
    {
        self.body.push(item)?;
        Ok(())
    }

    /// Puts the node that a statement declares, which begins in this line and stands before the commands.
    pub fn put_node(&mut self, line: u32, decl: Decl<'a>) -> Result<(), Misplaced>
        ensures { Answers (λ _. blocks_view self.new) misplaced_view result
            (before_begin (blocks_view self.old) line (declares (declaration_view decl.entry))) }
    {
        self.put_item(Stmt::Decl { line, decl })
    }

    /// Opens one more block.
    fn put_frame(&mut self, alloc: Global, line: u32, opener: Opener<'a>) -> Result<(), Misplaced>
        ensures { Answers (λ _. blocks_view self.new) misplaced_view result
            (with_frame (blocks_view self.old) line (opener_view opener.entry)) }
    {
        if self.frames.len() >= MOST_BLOCKS {
            return Err(Misplaced::Crowded);
        }
        let before = mem::replace(&mut self.body, Vec::new(alloc));
        self.frames.push(Frame {
            line,
            opener,
            before,
        })?;
        Ok(())
    }

    /// Closes the innermost block.
    fn close_frame(&mut self, alloc: Global) -> Result<(), Misplaced>
        ensures { Answers (λ _. blocks_view self.new) misplaced_view result
            (without_frame (blocks_view self.old) (blocks_view self.old).frames) }
    {
        let Some(frame) = self.frames.pop() else {
            return Err(Misplaced::Forbidden);
        };
        let Frame {
            line,
            opener,
            before,
        } = frame;
        let body = mem::replace(&mut self.body, before);
        let block = closed_block(alloc, line, opener, body)?;
        self.body.push(block)?;
        Ok(())
    }

    /// Opens a module, which stands in no other block.
    fn put_module(
        &mut self,
        alloc: Global,
        line: u32,
        title: &'a str,
        params: Items<Param<'a>>,
    ) -> Result<(), Misplaced>
        ensures { Answers (λ _. blocks_view self.new) misplaced_view result
            (outside_blocks (blocks_view self.old).frames
            (with_frame (blocks_view self.old) line
            (opens_module title.now (map param_view params.entry)))) }
    {
        if !self.frames.is_empty() {
            return Err(Misplaced::Forbidden);
        }
        self.put_frame(alloc, line, Opener::Module { title, params })
    }

    /// Begins, which stands in no block.
    fn put_begin(&mut self) -> Result<(), Misplaced>
        ensures { Answers (λ _. blocks_view self.new) misplaced_view result
            (outside_blocks (blocks_view self.old).frames (with_begin (blocks_view self.old))) }
    {
        if !self.frames.is_empty() {
            return Err(Misplaced::Forbidden);
        }
        self.begun = true;
        Ok(())
    }

    /// Puts the next statement into the blocks, which begins in this line and stands before the commands.
    pub fn put(&mut self, alloc: Global, line: u32, next: Statement<'a>) -> Result<(), Misplaced>
        ensures { Answers (λ _. blocks_view self.new) misplaced_view result
            (before_begin (blocks_view self.old) line (statement_view next.entry)) }
    {
        match next {
            Statement::Decl(decl) => self.put_item(Stmt::Decl { line, decl }),
            Statement::Module { title, params } => self.put_module(alloc, line, title, params),
            Statement::Instance {
                title,
                args,
                prefix,
            } => self.put_item(Stmt::Instance {
                line,
                title,
                args,
                prefix,
            }),
            Statement::Loop {
                variable,
                from,
                upto,
            } => self.put_frame(
                alloc,
                line,
                Opener::Loop {
                    variable,
                    from,
                    upto,
                },
            ),
            Statement::End => self.close_frame(alloc),
            Statement::Begin => self.put_begin(),
            Statement::Order(_) => Err(Misplaced::Forbidden),
        }
    }
}
