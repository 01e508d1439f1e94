// Expressions and what they are made of. Contracts see each as a tree without memory.
ghost use Rattle.std.specs.Prelude.{◌≡◌, ◌<◌, length, slice_get, Some, OnOk, OnErr};
ghost use Rattle.s80_base.specs.Literal.{literal_of};
ghost use Rattle.s80_tree.specs.Name.{names_of};
ghost use Rattle.s80_tree.specs.Tree.{expr, name as name_tree, literal as literal_tree, block as block_tree, paren as paren_tree, no_exprs, exprs, no_messages, messages as message_trees, no_stmts, stmts, expr_of, primary_of, block_of, message_of, stmt_of, exprs_of, messages_of, body_of, exprs_list, messages_list, body_list, exprs_append, messages_append, body_append, is_bare, is_super};

use crate::name::{NameAt, NamesAt};
use s80_base::{Literal, OutOfMemory, Text};
use std::alloc::Global;

/// An expression: what it is assigned to, its receiver, the messages to it in order, and those behind semicolons, whose
/// receiver is that of the last of `messages`. An argument has neither targets nor cascades.
#[cycle(tree)]
#[derive(Debug, Drop)]
pub struct Expr {
    pub targets: NamesAt,
    pub receiver: Primary,
    pub messages: Messages,
    pub cascades: Messages,
}

/// A list of expressions.
#[cycle(tree)]
#[derive(Debug, Drop)]
pub struct Exprs {
    pub items: Vec<Expr>,
}

/// What stands alone as an operand.
#[cycle(tree)]
#[derive(Debug, Drop)]
pub enum Primary {
    Name(NameAt),
    Literal(Literal),
    Block(Block),
    Paren(Box<Expr>),
}

/// A message: its selector, and as many arguments as that wants.
#[cycle(tree)]
#[derive(Debug, Drop)]
pub struct Message {
    pub selector: Text,
    pub arguments: Exprs,
}

/// A list of messages.
#[cycle(tree)]
#[derive(Debug, Drop)]
pub struct Messages {
    pub items: Vec<Message>,
}

/// A block with its parameters.
#[cycle(tree)]
#[derive(Debug, Drop)]
pub struct Block {
    pub parameters: NamesAt,
    pub body: Body,
}

/// A statement, and whether it returns its value.
#[cycle(tree)]
#[derive(Debug, Drop)]
pub struct Stmt {
    pub returns: bool,
    pub expr: Expr,
}

/// A list of statements.
#[cycle(tree)]
#[derive(Debug, Drop)]
pub struct Body {
    pub items: Vec<Stmt>,
}

impl Expr {
    pub fn new(targets: NamesAt, receiver: Primary, messages: Messages, cascades: Messages) -> Self
        ensures { expr_of result ≡ expr (names_of targets) (primary_of receiver) (messages_of messages) (messages_of cascades) }
    {
        Expr {
            targets,
            receiver,
            messages,
            cascades,
        }
    }

    /// Whether it is its receiver, and nothing else.
    #[tactic(auto, using(crate::proofs::lemmas::Opens::bare_is))]
    pub fn is_bare(&self) -> bool
        ensures { result ≡ is_bare (expr_of self.now) }
    {
        self.targets.items.is_empty()
            && self.messages.items.is_empty()
            && self.cascades.items.is_empty()
    }
}

impl Primary {
    pub fn name(name: NameAt) -> Self
        ensures { primary_of result ≡ name_tree name }
    {
        Primary::Name(name)
    }

    pub fn literal(literal: Literal) -> Self
        ensures { primary_of result ≡ literal_tree (literal_of literal) }
    {
        Primary::Literal(literal)
    }

    pub fn block(block: Block) -> Self
        ensures { primary_of result ≡ block_tree (block_of block).0 (block_of block).1 }
    {
        Primary::Block(block)
    }

    pub fn paren(inner: Box<Expr>) -> Self
        ensures { primary_of result ≡ paren_tree (expr_of inner.value) }
    {
        Primary::Paren(inner)
    }

    /// Whether it is `super`, by its name.
    pub fn is_super(&self) -> bool
        ensures { result ≡ is_super (primary_of self.now) }
    {
        match self {
            Primary::Name(name) => name.name.bytes() == b"super".as_slice(),
            Primary::Literal(_) | Primary::Block(_) | Primary::Paren(_) => false,
        }
    }
}

impl Block {
    pub fn new(parameters: NamesAt, body: Body) -> Self
        ensures { block_of result ≡ (names_of parameters, body_of body) }
    {
        Block { parameters, body }
    }
}

impl Message {
    pub fn new(selector: Text, arguments: Exprs) -> Self
        ensures { message_of result ≡ (selector, exprs_of arguments) }
    {
        Message {
            selector,
            arguments,
        }
    }
}

impl Stmt {
    pub fn new(returns: bool, expr: Expr) -> Self
        ensures { stmt_of result ≡ (returns, expr_of expr) }
    {
        Stmt { returns, expr }
    }
}

impl Exprs {
    pub fn empty(alloc: Global) -> Self
        ensures { exprs_of result ≡ no_exprs }
    {
        Exprs {
            items: Vec::new(alloc),
        }
    }

    /// Adds an expression at the end. When out of memory, the list is as before.
    #[tactic(auto, using(crate::proofs::lemmas::Lists::exprs_added))]
    pub fn push(&mut self, expr: Expr) -> Result<(), OutOfMemory>
        ensures ok { OnOk result (exprs_of self.new ≡ exprs_append (exprs_of self.old) (exprs (expr_of expr) no_exprs)) }
        ensures err { OnErr result (exprs_of self.new ≡ exprs_of self.old) }
    {
        self.items.push(expr)?;
        Ok(())
    }

    #[tactic(auto, using(crate::proofs::lemmas::Lists::exprs_read))]
    pub fn count(&self) -> usize
        ensures { result ≡ length (exprs_list (exprs_of self.now)) }
    {
        self.items.len()
    }

    #[tactic(auto, using(crate::proofs::lemmas::Lists::exprs_read))]
    pub fn at(&self, i: usize) -> &Expr
        requires { i < length (exprs_list (exprs_of self.now)) }
        ensures { slice_get (exprs_list (exprs_of self.now)) i ≡ Some (expr_of result.now) }
    {
        &self.items[i]
    }
}

impl Messages {
    pub fn empty(alloc: Global) -> Self
        ensures { messages_of result ≡ no_messages }
    {
        Messages {
            items: Vec::new(alloc),
        }
    }

    /// Adds a message at the end. When out of memory, the list is as before.
    #[tactic(auto, using(crate::proofs::lemmas::Lists::messages_added))]
    pub fn push(&mut self, message: Message) -> Result<(), OutOfMemory>
        ensures ok { OnOk result (messages_of self.new ≡ messages_append (messages_of self.old) (message_trees (message_of message).0 (message_of message).1 no_messages)) }
        ensures err { OnErr result (messages_of self.new ≡ messages_of self.old) }
    {
        self.items.push(message)?;
        Ok(())
    }

    #[tactic(auto, using(crate::proofs::lemmas::Lists::messages_read))]
    pub fn count(&self) -> usize
        ensures { result ≡ length (messages_list (messages_of self.now)) }
    {
        self.items.len()
    }

    #[tactic(auto, using(crate::proofs::lemmas::Lists::messages_read))]
    pub fn at(&self, i: usize) -> &Message
        requires { i < length (messages_list (messages_of self.now)) }
        ensures { slice_get (messages_list (messages_of self.now)) i ≡ Some (message_of result.now) }
    {
        &self.items[i]
    }
}

impl Body {
    pub fn empty(alloc: Global) -> Self
        ensures { body_of result ≡ no_stmts }
    {
        Body {
            items: Vec::new(alloc),
        }
    }

    /// Adds a statement at the end. When out of memory, the list is as before.
    #[tactic(auto, using(crate::proofs::lemmas::Lists::body_added))]
    pub fn push(&mut self, stmt: Stmt) -> Result<(), OutOfMemory>
        ensures ok { OnOk result (body_of self.new ≡ body_append (body_of self.old) (stmts (stmt_of stmt).0 (stmt_of stmt).1 no_stmts)) }
        ensures err { OnErr result (body_of self.new ≡ body_of self.old) }
    {
        self.items.push(stmt)?;
        Ok(())
    }

    #[tactic(auto, using(crate::proofs::lemmas::Lists::body_read))]
    pub fn count(&self) -> usize
        ensures { result ≡ length (body_list (body_of self.now)) }
    {
        self.items.len()
    }

    #[tactic(auto, using(crate::proofs::lemmas::Lists::body_read))]
    pub fn at(&self, i: usize) -> &Stmt
        requires { i < length (body_list (body_of self.now)) }
        ensures { slice_get (body_list (body_of self.now)) i ≡ Some (stmt_of result.now) }
    {
        &self.items[i]
    }
}
