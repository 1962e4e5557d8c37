//! Statements, each up to its `;`.

ghost use Rattle.std.specs.Prelude.{◌≡◌, ◌<◌, true, length, map, IfOk, IfSome};
ghost use Rattle.dn_token.specs.Terms.{cursor_view};
ghost use Rattle.dn_parse.specs.Terms.{IsShorter, Reads, ReadsNext, access_at, any_word_at, as_declared, begins_node, command_at, command_view, declaration_view, declares, expr_view, gather_at, grant_at, keyword_statement_at, lookup_at, loop_at, measure_at, mode_at, module_at, node_at, order_at, order_view, radix_at, resolve_at, role_view, route_at, statement_at, statement_view, unit_declaration_at, use_at, view_at, whole_statement_at, word_order_at, word_statement_at};
ghost use Rattle.dn_parse.specs.declared.cursor.Halt.TheVariants.{Refused};

use crate::cursor::{
    Halt, after_keyword, after_sign, after_word, begins_order, keyword, refusal, sign, the_word,
    word,
};
use crate::expressions::{MOST_OPEN, expr};
use crate::listed::{Separator, closed_members, eight_members};
use crate::nodes::{name, spec};
use crate::syntax::{
    Arg, Cmd, Decl, DeclRole, Expr, GrantExpr, Mode, NameExpr, Order, Param, PieceExpr, RouteExpr,
    UnitExpr,
};
use dn_base::items::Items;
use dn_token::cursor::Cursor;
use dn_token::keyword::spelling;
use dn_token::token::{Keyword, Lexeme, Sign};
use std::alloc::Global;

/// A statement as it stands between two `;`: a module or a loop is its head.
#[derive(Drop)]
pub enum Statement<'a> {
    Decl(Decl<'a>),
    Module {
        title: &'a str,
        params: Items<Param<'a>>,
    },
    Instance {
        title: &'a str,
        args: Items<Arg<'a>>,
        prefix: Box<NameExpr<'a>>,
    },
    Loop {
        variable: &'a str,
        from: Expr<'a>,
        upto: Expr<'a>,
    },
    End,
    Begin,
    Order(Order<'a>),
}

/// A word of either sort.
#[tactic(auto, unfolding(crate::specs::Descent::any_word_at))]
fn any_word<'a>(tokens: &mut Cursor<'a>) -> Result<&'a str, Halt>
    ensures gives { Reads (λ x. x.now) result tokens.new (any_word_at (cursor_view tokens.old)) }
{
    let Some(token) = tokens.peek() else {
        return Err(refusal(tokens));
    };
    let word = match token.lexeme {
        Lexeme::Word(word) => word,
        Lexeme::Keyword(word) => spelling(word),
        _ => return Err(refusal(tokens)),
    };
    tokens.step();
    Ok(word)
}

/// `name "is" spec`
#[tactic(auto, unfolding(crate::specs::Descent::node_at))]
fn node<'a>(alloc: Global, tokens: &mut Cursor<'a>, role: DeclRole) -> Result<Decl<'a>, Halt>
    ensures gives { Reads declaration_view result tokens.new
        (node_at (role_view role) (cursor_view tokens.old)) }
{
    let name = name(alloc, tokens, MOST_OPEN)?;
    keyword(tokens, Keyword::Is)?;
    let spec = spec(alloc, tokens)?;
    Ok(Decl::Node { role, name, spec })
}

/// `name "is" spec`, as a statement
#[inline(never)]
fn node_statement<'a>(
    alloc: Global,
    tokens: &mut Cursor<'a>,
    role: DeclRole,
) -> Result<Statement<'a>, Halt>
    ensures gives { Reads statement_view result tokens.new
        (as_declared (node_at (role_view role) (cursor_view tokens.old))) }
{
    let node = node(alloc, tokens, role)?;
    Ok(Statement::Decl(node))
}

/// A reserved word, and then an expression.
#[tactic(auto, unfolding(crate::specs::Descent::measure_at))]
fn measure<'a>(alloc: Global, tokens: &mut Cursor<'a>, word: Keyword) -> Result<Expr<'a>, Halt>
    ensures gives { Reads expr_view result tokens.new (measure_at word (cursor_view tokens.old)) }
{
    keyword(tokens, word)?;
    expr(alloc, tokens, MOST_OPEN)
}

/// `name "kind" any "page" expr "slots" expr "reach" expr "to" name { "," name }`, with at most eight ports
#[tactic(auto, unfolding(crate::specs::Descent::unit_declaration_at, crate::specs::Descent::ports_at, crate::specs::Descent::next_port_at))]
fn unit<'a>(alloc: Global, tokens: &mut Cursor<'a>) -> Result<Decl<'a>, Halt>
    ensures gives { Reads declaration_view result tokens.new
        (unit_declaration_at (cursor_view tokens.old)) }
{
    let name = name(alloc, tokens, MOST_OPEN)?;
    keyword(tokens, Keyword::Kind)?;
    let kind = any_word(tokens)?;
    let page = measure(alloc, tokens, Keyword::Page)?;
    let slots = measure(alloc, tokens, Keyword::Slots)?;
    let reach = measure(alloc, tokens, Keyword::Reach)?;
    keyword(tokens, Keyword::To)?;
    let ports = eight_members(alloc, tokens, Separator::Comma)?;
    let unit = UnitExpr {
        name,
        kind,
        page,
        slots,
        reach,
        ports,
    };
    Ok(Decl::Unit(Box::new(alloc, unit)?))
}

/// `word "(" [ param { "," param } ] ")"`
#[tactic(auto, unfolding(crate::specs::Descent::module_at, crate::specs::Descent::closed_params_at, crate::specs::Descent::params_at, crate::specs::Descent::next_param_at))]
fn module<'a>(alloc: Global, tokens: &mut Cursor<'a>) -> Result<Statement<'a>, Halt>
    ensures gives { Reads statement_view result tokens.new (module_at (cursor_view tokens.old)) }
{
    let title = word(tokens)?;
    sign(tokens, Sign::OpenParenthesis)?;
    let params = closed_members(alloc, tokens)?;
    Ok(Statement::Module { title, params })
}

/// `word "(" [ arg { "," arg } ] ")" "as" name`
#[tactic(auto, unfolding(crate::specs::Descent::use_at, crate::specs::Descent::closed_args_at, crate::specs::Descent::args_at, crate::specs::Descent::next_arg_at))]
fn instance<'a>(alloc: Global, tokens: &mut Cursor<'a>) -> Result<Statement<'a>, Halt>
    ensures gives { Reads statement_view result tokens.new (use_at (cursor_view tokens.old)) }
{
    let title = word(tokens)?;
    sign(tokens, Sign::OpenParenthesis)?;
    let args = closed_members(alloc, tokens)?;
    keyword(tokens, Keyword::As)?;
    let prefix = name(alloc, tokens, MOST_OPEN)?;
    Ok(Statement::Instance {
        title,
        args,
        prefix: Box::new(alloc, prefix)?,
    })
}

/// `word "in" expr ".." expr`
#[tactic(auto, unfolding(crate::specs::Descent::loop_at))]
fn loop_head<'a>(alloc: Global, tokens: &mut Cursor<'a>) -> Result<Statement<'a>, Halt>
    ensures gives { Reads statement_view result tokens.new (loop_at (cursor_view tokens.old)) }
{
    let variable = word(tokens)?;
    let from = measure(alloc, tokens, Keyword::In)?;
    sign(tokens, Sign::Dots)?;
    let upto = expr(alloc, tokens, MOST_OPEN)?;
    let head = Statement::Loop {
        variable,
        from,
        upto,
    };
    Ok(head)
}

/// `"read" | "write"`
#[tactic(auto, unfolding(crate::specs::Descent::mode_at))]
fn mode<'a>(tokens: &mut Cursor<'a>) -> Result<Mode, Halt>
    ensures gives { Reads (λ m. m) result tokens.new (mode_at (cursor_view tokens.old)) }
{
    if !after_word(tokens, "read") {
        the_word(tokens, "write")?;
        return Ok(Mode::Write);
    }
    Ok(Mode::Read)
}

/// `[ "for" ( "read" | "write" ) ]`
#[tactic(auto, unfolding(crate::specs::Descent::access_at))]
fn access<'a>(tokens: &mut Cursor<'a>) -> Result<Mode, Halt>
    ensures gives { Reads (λ m. m) result tokens.new (access_at (cursor_view tokens.old)) }
{
    if !after_keyword(tokens, Keyword::For) {
        return Ok(Mode::Unsaid);
    }
    mode(tokens)
}

/// `name expr [ access ]`, of `resolve`
#[tactic(auto, unfolding(crate::specs::Descent::resolve_at))]
fn resolve<'a>(alloc: Global, tokens: &mut Cursor<'a>) -> Result<Order<'a>, Halt>
    ensures gives { Reads order_view result tokens.new (resolve_at (cursor_view tokens.old)) }
{
    let name = name(alloc, tokens, MOST_OPEN)?;
    let addr = expr(alloc, tokens, MOST_OPEN)?;
    let mode = access(tokens)?;
    Ok(Order::Resolve(name, addr, mode))
}

/// `name expr [ access ]`, of `lookup`
#[tactic(auto, unfolding(crate::specs::Descent::lookup_at))]
fn lookup<'a>(alloc: Global, tokens: &mut Cursor<'a>) -> Result<Order<'a>, Halt>
    ensures gives { Reads order_view result tokens.new (lookup_at (cursor_view tokens.old)) }
{
    let name = name(alloc, tokens, MOST_OPEN)?;
    let addr = expr(alloc, tokens, MOST_OPEN)?;
    let mode = access(tokens)?;
    Ok(Order::Lookup(name, addr, mode))
}

/// `name [ access ]`, of `view`
#[tactic(auto, unfolding(crate::specs::Descent::view_at))]
fn view<'a>(alloc: Global, tokens: &mut Cursor<'a>) -> Result<Order<'a>, Halt>
    ensures gives { Reads order_view result tokens.new (view_at (cursor_view tokens.old)) }
{
    let name = name(alloc, tokens, MOST_OPEN)?;
    let mode = access(tokens)?;
    Ok(Order::View(name, mode))
}

/// `word name name expr expr [ access ]`
#[tactic(auto, unfolding(crate::specs::Descent::grant_at))]
fn grant<'a>(alloc: Global, tokens: &mut Cursor<'a>) -> Result<Order<'a>, Halt>
    ensures gives { Reads order_view result tokens.new (grant_at (cursor_view tokens.old)) }
{
    let id = word(tokens)?;
    let agent = name(alloc, tokens, MOST_OPEN)?;
    let node = name(alloc, tokens, MOST_OPEN)?;
    let base = expr(alloc, tokens, MOST_OPEN)?;
    let size = expr(alloc, tokens, MOST_OPEN)?;
    let mode = access(tokens)?;
    let grant = GrantExpr {
        id,
        agent,
        node,
        base,
        size,
        mode,
    };
    Ok(Order::Grant(Box::new(alloc, grant)?))
}

/// `word name expr name`
#[tactic(auto, unfolding(crate::specs::Descent::route_at))]
fn route<'a>(alloc: Global, tokens: &mut Cursor<'a>) -> Result<Order<'a>, Halt>
    ensures gives { Reads order_view result tokens.new (route_at (cursor_view tokens.old)) }
{
    let id = word(tokens)?;
    let agent = name(alloc, tokens, MOST_OPEN)?;
    let line = expr(alloc, tokens, MOST_OPEN)?;
    let node = name(alloc, tokens, MOST_OPEN)?;
    let route = RouteExpr {
        id,
        agent,
        line,
        node,
    };
    Ok(Order::Route(Box::new(alloc, route)?))
}

/// `name expr`, of `radix`
#[tactic(auto, unfolding(crate::specs::Descent::radix_at))]
fn radix<'a>(alloc: Global, tokens: &mut Cursor<'a>) -> Result<Order<'a>, Halt>
    ensures gives { Reads order_view result tokens.new (radix_at (cursor_view tokens.old)) }
{
    let node = name(alloc, tokens, MOST_OPEN)?;
    let pool = expr(alloc, tokens, MOST_OPEN)?;
    Ok(Order::Radix { node, pool })
}

/// `name piece { "and" piece } [ access ]`, of `gather`, with at most eight pieces
#[tactic(auto, unfolding(crate::specs::Descent::gather_at, crate::specs::Descent::pieces_at, crate::specs::Descent::next_piece_at))]
fn gather<'a>(alloc: Global, tokens: &mut Cursor<'a>) -> Result<Order<'a>, Halt>
    ensures gives { Reads order_view result tokens.new (gather_at (cursor_view tokens.old)) }
{
    let agent = name(alloc, tokens, MOST_OPEN)?;
    let pieces = eight_members(alloc, tokens, Separator::And)?;
    let mode = access(tokens)?;
    Ok(Order::Gather {
        agent,
        pieces,
        mode,
    })
}

/// What follows the word of a command that is not reserved.
#[tactic(auto, unfolding(crate::specs::Descent::word_order_at))]
fn word_order<'a>(alloc: Global, word: &str, tokens: &mut Cursor<'a>) -> Result<Order<'a>, Halt>
    ensures gives { Reads order_view result tokens.new
        (word_order_at word.now (cursor_view tokens.old)) }
{
    if word == "radix" {
        return radix(alloc, tokens);
    }
    gather(alloc, tokens)
}

/// What follows the reserved word of a command; `whole` begins with the word.
#[tactic(auto, unfolding(crate::specs::Descent::order_at))]
fn order<'a>(
    alloc: Global,
    word_of: Keyword,
    whole: &Cursor<'a>,
    tokens: &mut Cursor<'a>,
) -> Result<Order<'a>, Halt>
    ensures gives { Reads order_view result tokens.new
        (order_at word_of (cursor_view whole.now) (cursor_view tokens.old)) }
{
    match word_of {
        Keyword::Resolve => resolve(alloc, tokens),
        Keyword::Lookup => lookup(alloc, tokens),
        Keyword::View => view(alloc, tokens),
        Keyword::Grant => grant(alloc, tokens),
        Keyword::Route => route(alloc, tokens),
        Keyword::Revoke => {
            let id = word(tokens)?;
            Ok(Order::Revoke(id))
        }
        Keyword::Dump => Ok(Order::Dump),
        Keyword::Split => Ok(Order::Split),
        Keyword::Absorb => {
            let name = name(alloc, tokens, MOST_OPEN)?;
            Ok(Order::Absorb(name))
        }
        _ => Err(refusal(whole)),
    }
}

/// A statement that begins with a reserved word; `whole` begins with the word.
#[tactic(auto, unfolding(crate::specs::Descent::keyword_statement_at))]
fn keyword_statement<'a>(
    alloc: Global,
    word: Keyword,
    whole: &Cursor<'a>,
    tokens: &mut Cursor<'a>,
) -> Result<Statement<'a>, Halt>
    ensures gives { Reads statement_view result tokens.new
        (keyword_statement_at word (cursor_view whole.now) (cursor_view tokens.old)) }
{
    match word {
        Keyword::Agent => node_statement(alloc, tokens, DeclRole::Agent),
        Keyword::Vectors => node_statement(alloc, tokens, DeclRole::Vectors),
        Keyword::Unit => {
            let unit = unit(alloc, tokens)?;
            Ok(Statement::Decl(unit))
        }
        Keyword::Module => module(alloc, tokens),
        Keyword::Use => instance(alloc, tokens),
        Keyword::For => loop_head(alloc, tokens),
        Keyword::End => Ok(Statement::End),
        Keyword::Begin => Ok(Statement::Begin),
        _ => {
            let order = order(alloc, word, whole, tokens)?;
            Ok(Statement::Order(order))
        }
    }
}

/// A statement that begins with a word that is not reserved: a command, or the declaration of a node;
/// `whole` begins with the word.
#[tactic(auto, unfolding(crate::specs::Descent::word_statement_at))]
fn word_statement<'a>(
    alloc: Global,
    word: &str,
    whole: &Cursor<'a>,
    tokens: &mut Cursor<'a>,
) -> Result<Statement<'a>, Halt>
    ensures gives { Reads statement_view result tokens.new
        (word_statement_at word.now (cursor_view whole.now) (cursor_view tokens.old)) }
{
    if begins_order(word, tokens) {
        let order = word_order(alloc, word, tokens)?;
        return Ok(Statement::Order(order));
    }
    *tokens = *whole;
    node_statement(alloc, tokens, DeclRole::Plain)
}

/// A statement, up to its `;`.
#[tactic(auto, unfolding(crate::specs::Descent::statement_at))]
fn read_statement<'a>(alloc: Global, tokens: &mut Cursor<'a>) -> Result<Statement<'a>, Halt>
    ensures gives { Reads statement_view result tokens.new (statement_at (cursor_view tokens.old)) }
{
    let Some(token) = tokens.peek() else {
        return Err(refusal(tokens));
    };
    match token.lexeme {
        Lexeme::Word(word) => {
            let whole = *tokens;
            tokens.step();
            word_statement(alloc, word, &whole, tokens)
        }
        Lexeme::Keyword(word) => {
            let whole = *tokens;
            tokens.step();
            keyword_statement(alloc, word, &whole, tokens)
        }
        _ => Err(refusal(tokens)),
    }
}

/// The refusal of what follows a statement where no `;` does.
#[cold]
#[inline(never)]
fn refuse_unclosed<'a>(statement: Statement<'a>, tokens: &Cursor<'a>) -> Halt
    ensures { result ≡ Refused (length (cursor_view tokens.now)) }
{
    drop(statement);
    refusal(tokens)
}

/// A statement and its `;`.
#[tactic(auto, unfolding(crate::specs::Descent::whole_statement_at, crate::specs::Descent::sign_at))]
pub fn whole_statement<'a>(alloc: Global, tokens: &mut Cursor<'a>) -> Result<Statement<'a>, Halt>
    ensures gives { Reads statement_view result tokens.new
        (whole_statement_at (cursor_view tokens.old)) }
    ensures shorter { IfOk result (λ _. IsShorter tokens.new tokens.old) }
{
    let statement = read_statement(alloc, tokens)?;
    if !after_sign(tokens, Sign::Semicolon) {
        return Err(refuse_unclosed(statement, tokens));
    }
    Ok(statement)
}

/// The declaration of a node that begins with its name, and its `;`: the statement that a text has the most,
/// so that it takes the short way.
#[tactic(auto, unfolding(crate::specs::Descent::whole_statement_at, crate::specs::Descent::sign_at), using(crate::proofs::Opening::node_begins))]
pub fn whole_node<'a>(alloc: Global, tokens: &mut Cursor<'a>) -> Result<Decl<'a>, Halt>
    requires { begins_node (cursor_view tokens.old) ≡ true }
    ensures gives { Reads (λ d. declares (declaration_view d)) result tokens.new
        (whole_statement_at (cursor_view tokens.old)) }
    ensures shorter { IfOk result (λ _. IsShorter tokens.new tokens.old) }
{
    let decl = node(alloc, tokens, DeclRole::Plain)?;
    if !after_sign(tokens, Sign::Semicolon) {
        return Err(refuse_unclosed(Statement::Decl(decl), tokens));
    }
    Ok(decl)
}

/// A command with its `;`, which begins in this line; or nothing, where the statement there is none.
#[tactic(auto, unfolding(crate::specs::Commands::command_at))]
pub fn command<'a>(
    alloc: Global,
    tokens: &mut Cursor<'a>,
    line: u32,
) -> Result<Option<Cmd<'a>>, Halt>
    ensures gives { ReadsNext command_view result tokens.new
        (command_at line (cursor_view tokens.old)) }
    ensures shorter { IfOk result (λ o. IfSome o (λ _. IsShorter tokens.new tokens.old)) }
{
    let statement = whole_statement(alloc, tokens)?;
    match statement {
        Statement::Order(order) => Ok(Some(Cmd { line, order })),
        _ => Ok(None),
    }
}
