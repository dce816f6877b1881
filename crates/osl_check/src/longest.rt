//! The longest name of a source, and its longest string outside metadata.

ghost use Rattle.std.specs.Prelude.{◌≡◌, length, map};
ghost use Rattle.osl_typed.specs.Longest as spec;
ghost use Rattle.osl_typed.specs.Longest.{◌and◌};

use osl_tree::expr::Expr;
use osl_tree::stmt::{Declaration, ForStart, Init, Item, Stmt, TypeName, Var};
use osl_tree::tree::{Datum, Definition, Fields, Formal, Function, Param, Structure, Tree};
use std::marker::Model;

/// The most bytes of a name and of a string.
#[derive(Drop)]
pub(crate) struct Lengths {
    word: u64,
    text: u64,
}

impl Model for Lengths {
    ghost use Rattle.osl_typed.specs.Longest.{Longest};

    ghost Value = { Longest };

    ghost view = { λ l. (record { word = l.word; text = l.text }) };
}

impl Lengths {
    fn none() -> Lengths
        ensures { result ≡ spec.none }
    {
        Lengths { word: 0, text: 0 }
    }

    fn named(word: &[u8]) -> Lengths
        ensures { result ≡ spec.named word.now }
    {
        Lengths {
            word: word.len() as u64,
            text: 0,
        }
    }

    fn written(text: &[u8]) -> Lengths
        ensures { result ≡ (record { word = 0; text = length text.now }) }
    {
        Lengths {
            word: 0,
            text: text.len() as u64,
        }
    }

    fn and(self, other: Lengths) -> Lengths
        ensures { result ≡ self and other }
    {
        Lengths {
            word: self.word.max(other.word),
            text: self.text.max(other.text),
        }
    }

    fn without_text(self) -> Lengths
        ensures { result ≡ (record { word = self.word; text = 0 }) }
    {
        Lengths {
            word: self.word,
            text: 0,
        }
    }

    /// The most bytes of a name.
    pub(crate) fn word(&self) -> u64
        ensures { result ≡ self.now.word }
    {
        self.word
    }

    /// The most bytes of a string.
    pub(crate) fn text(&self) -> u64
        ensures { result ≡ self.now.text }
    {
        self.text
    }
}

/// What has names or strings in it.
trait Measured: Sized {
    ghost use Rattle.osl_typed.specs.Longest.{Longest};

    /// The longest of them.
    ghost longest: { Self → Longest };

    fn lengths(&self) -> Lengths
        ensures { result ≡ longest self.now };
}

/// The longest in a list of parts.
fn all<T: Measured>(parts: &[T]) -> Lengths
    ensures { result ≡ spec.all_of (map T.longest parts.now) }
{
    let mut longest = Lengths::none();
    for part in parts {
        longest = longest.and(part.lengths());
    }
    longest
}

#[tactic(auto, using(crate::proofs::LengthLaws::expression_laws))]
#[cycle(measuring)]
fn expr(a: &Expr) -> Lengths
    ensures { result ≡ spec.in_expr a.now }
{
    match a {
        Expr::Int(_) | Expr::Float(_) => Lengths::none(),
        Expr::Text(bytes) => Lengths::written(bytes.as_slice()),
        Expr::Name(word) => Lengths::named(word.as_slice()),
        Expr::Call(word, args) => Lengths::named(word.as_slice()).and(exprs(args.as_slice())),
        Expr::Construct(_, args) => exprs(args.as_slice()),
        Expr::Paren(a) => expr(a.get()),
        Expr::Index(a, i) => expr(a.get()).and(expr(i.get())),
        Expr::Field(a, word) => expr(a.get()).and(Lengths::named(word.as_slice())),
        Expr::Postfix(_, a) => expr(a.get()),
        Expr::Prefix(_, a) => expr(a.get()),
        Expr::Cast(_, a) => expr(a.get()),
        Expr::Binary(_, a, b) => expr(a.get()).and(expr(b.get())),
        Expr::Choice(c, a, b) => expr(c.get()).and(expr(a.get())).and(expr(b.get())),
        Expr::Assign(_, a, b) => expr(a.get()).and(expr(b.get())),
    }
}

#[cycle(measuring)]
fn exprs(items: &[Expr]) -> Lengths
    ensures { result ≡ spec.all_of (map spec.in_expr items.now) }
{
    let mut longest = Lengths::none();
    for item in items {
        longest = longest.and(expr(item));
    }
    longest
}

fn maybe_expr(a: &Option<Expr>) -> Lengths
    ensures { result ≡ spec.in_maybe_expr a.now }
{
    match a {
        Some(a) => expr(a),
        None => Lengths::none(),
    }
}

fn type_name(ty: &TypeName) -> Lengths
    ensures { result ≡ spec.in_type ty.now }
{
    match ty {
        TypeName::Base(_) => Lengths::none(),
        TypeName::Struct(word) => Lengths::named(word.as_slice()),
    }
}

fn init(init: &Init) -> Lengths
    ensures { result ≡ spec.in_init init.now }
{
    match init {
        Init::Expr(a) => expr(a),
        Init::List(items) => exprs(items.as_slice()),
    }
}

fn maybe_init(x: &Option<Init>) -> Lengths
    ensures { result ≡ spec.in_maybe_init x.now }
{
    match x {
        Some(x) => init(x),
        None => Lengths::none(),
    }
}

impl Measured for Item {
    ghost longest = { spec.in_item };

    fn lengths(&self) -> Lengths {
        Lengths::named(self.name.as_slice())
    }
}

impl Measured for Var {
    ghost longest = { spec.in_var };

    fn lengths(&self) -> Lengths {
        self.item.lengths().and(maybe_init(&self.init))
    }
}

fn declaration(d: &Declaration) -> Lengths
    ensures { result ≡ spec.in_declaration d.now }
{
    type_name(&d.ty).and(all(d.vars.as_slice()))
}

fn start(start: &ForStart) -> Lengths
    ensures { result ≡ spec.in_start start.now }
{
    match start {
        ForStart::Nothing => Lengths::none(),
        ForStart::Expr(a) => expr(a),
        ForStart::Declare(d) => declaration(d),
    }
}

#[tactic(auto, using(crate::proofs::LengthLaws::statement_laws))]
#[cycle(walking)]
fn stmt(s: &Stmt) -> Lengths
    ensures { result ≡ spec.in_stmt s.now }
{
    match s {
        Stmt::Empty | Stmt::Break | Stmt::Continue => Lengths::none(),
        Stmt::Block(statements) => body(statements.as_slice()),
        Stmt::Declare(d) => declaration(d),
        Stmt::Expr(a) => expr(a),
        Stmt::Return(a) => maybe_expr(a),
        Stmt::If(c, a, b) => {
            let first = expr(c).and(stmt(a.get()));
            match b {
                Some(b) => first.and(stmt(b.get())),
                None => first.and(Lengths::none()),
            }
        }
        Stmt::While(c, a) => expr(c).and(stmt(a.get())),
        Stmt::DoWhile(a, c) => stmt(a.get()).and(expr(c)),
        Stmt::For(first, c, step, a) => start(first)
            .and(maybe_expr(c))
            .and(maybe_expr(step))
            .and(stmt(a.get())),
    }
}

#[cycle(walking)]
fn body(statements: &[Stmt]) -> Lengths
    ensures { result ≡ spec.in_body statements.now }
{
    let mut longest = Lengths::none();
    for s in statements {
        longest = longest.and(stmt(s));
    }
    longest
}

impl Measured for Fields {
    ghost longest = { spec.in_fields };

    fn lengths(&self) -> Lengths {
        type_name(&self.ty).and(all(self.items.as_slice()))
    }
}

fn structure(structure: &Structure) -> Lengths
    ensures { result ≡ spec.in_structure structure.now }
{
    Lengths::named(structure.name.as_slice()).and(all(structure.fields.as_slice()))
}

impl Measured for Formal {
    ghost longest = { spec.in_formal };

    fn lengths(&self) -> Lengths {
        type_name(&self.ty).and(self.item.lengths())
    }
}

fn result_type(ty: &Option<TypeName>) -> Lengths
    ensures { result ≡ spec.in_result ty.now }
{
    match ty {
        Some(ty) => type_name(ty),
        None => Lengths::none(),
    }
}

fn function(f: &Function) -> Lengths
    ensures { result ≡ spec.in_function f.now }
{
    result_type(&f.result)
        .and(Lengths::named(f.name.as_slice()))
        .and(all(f.formals.as_slice()))
        .and(body(f.body.as_slice()))
}

impl Measured for Definition {
    ghost longest = { spec.in_definition };

    fn lengths(&self) -> Lengths {
        match self {
            Definition::Structure(s) => structure(s),
            Definition::Function(f) => function(f),
        }
    }
}

/// Strings of metadata do not count.
impl Measured for Datum {
    ghost longest = { spec.in_datum };

    fn lengths(&self) -> Lengths {
        type_name(&self.ty).and(self.item.lengths()).without_text()
    }
}

impl Measured for Param {
    ghost longest = { spec.in_param };

    fn lengths(&self) -> Lengths {
        type_name(&self.ty)
            .and(self.item.lengths())
            .and(init(&self.init))
            .and(all(self.metadata.as_slice()))
    }
}

/// The longest name of a source, and its longest string outside metadata.
pub(crate) fn longest_of(tree: &Tree) -> Lengths
    ensures { result ≡ spec.longest_of tree.now }
{
    let shader = &tree.shader;
    all(tree.definitions.as_slice())
        .and(Lengths::named(shader.name.as_slice()))
        .and(all(shader.metadata.as_slice()))
        .and(all(shader.params.as_slice()))
        .and(body(shader.body.as_slice()))
}
