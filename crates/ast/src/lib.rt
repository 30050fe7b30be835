// The tree's records (src/parser/ast.rs): the kinds of nodes, the operators, and the writers of records over lent words.
#![tactic(auto)]

ghost use Rattle.std.specs.Prelude.{◌≡◌, ◌+◌, ◌*◌, ◌≤◌, T, length};
ghost use Rattle.literal.specs.Literal.{has_bits};
ghost use Rattle.ast.specs.Node.{made};
ghost use Rattle.ast.specs.Operator.{unary_op_lem, binary_op_lem};
ghost use Rattle.ast.specs.Words.{node_at, put_node_lem, set_span_lem, set_next_lem};
ghost use Rattle.ast.specs.Literal.{leaf, leaf_of_lem};
ghost use Rattle.ast.specs.Mask.{node_fields_lem};

use literal::Literal;
use numbers::halves::Halves;
use token::{NodeNumber, Place};

// "Kinds: 1 Program .. 34 Lambda" (01, Tree). specs/Kind.antt has the same numbers for the contracts. They are numbers and no enum, since a kind is a word of
// the tree, which C reads.
pub const PROGRAM: u32 = 1;

pub const IF: u32 = 2;

pub const WHILE: u32 = 3;

pub const FOR: u32 = 4;

pub const DEF: u32 = 5;

pub const RETURN: u32 = 6;

pub const ASSIGN: u32 = 7;

pub const CLASS: u32 = 8;

pub const BREAK: u32 = 9;

pub const CONTINUE: u32 = 10;

pub const PASS: u32 = 11;

pub const EXPR: u32 = 12;

pub const METHOD: u32 = 13;

pub const ELIF: u32 = 14;

pub const ELSE: u32 = 15;

pub const NAME: u32 = 16;

pub const PAIR: u32 = 17;

pub const BOOL: u32 = 18;

pub const INT: u32 = 19;

pub const STRING: u32 = 20;

pub const FLOAT: u32 = 21;

pub const NONE: u32 = 22;

pub const VARIABLE: u32 = 23;

pub const UNARY: u32 = 24;

pub const BINARY: u32 = 25;

pub const CALL: u32 = 26;

pub const ATTRIBUTE: u32 = 27;

pub const LIST: u32 = 28;

pub const DICT: u32 = 29;

pub const TUPLE: u32 = 30;

pub const SET: u32 = 31;

pub const TREE_SET: u32 = 32;

pub const INDEX: u32 = 33;

pub const LAMBDA: u32 = 34;

// What stands for no node.
pub const NONE_NODE: u32 = 4294967295;

// ---- records ----

// What a node holds besides its place in the source and in its list: its kind, and the four fields that the kind gives a meaning.
#[derive(Clone, Copy)]
pub struct Content {
    pub kind: u32,
    pub p: u32,
    pub q: u32,
    pub r: u32,
    pub s: u32,
}

impl Content {
    // With no use for r and s: "Unused words are 0" (01, Tree).
    pub fn of(kind: u32, p: u32, q: u32) -> Content
        ensures { result ≡ leaf kind p q }
    {
        Content {
            kind,
            p,
            q,
            r: 0,
            s: 0,
        }
    }
}

// The first word of node n: "node offset 8" (01, Tree).
fn word_of(n: NodeNumber) -> usize
    ensures { result ≡ 8 * n.0 + 8 }
{
    8 * (n.0 as usize) + 8
}

// Where node n starts in the source.
pub fn start_of(tree: &[u32], n: NodeNumber) -> Place
    requires { 8 * n.0 + 16 ≤ length tree.now }
    ensures { result.0 ≡ (node_at tree.now n.0).start }
{
    Place(tree[word_of(n) + 1])
}

// Writes the eight words of node n, which is in no list yet. (Stores and no copy_from_slice, which goes by way of the stack: about 20 instructions more.)
#[tactic(auto, unfolding(crate::specs::Words::put_node_lem))]
pub fn put_node(tree: &mut [u32], n: NodeNumber, start: Place, end: Place, content: Content)
    requires { 8 * n.0 + 16 ≤ length tree.old }
    ensures { tree.new ≡ put_node_lem tree.old n.0 (made content.kind start.0 end.0 content.p content.q content.r content.s) }
{
    let i = word_of(n);
    tree[i] = content.kind;
    tree[i + 1] = start.0;
    tree[i + 2] = end.0;
    tree[i + 3] = NONE_NODE;
    tree[i + 4] = content.p;
    tree[i + 5] = content.q;
    tree[i + 6] = content.r;
    tree[i + 7] = content.s;
}

// Gives node n another span.
#[tactic(auto, unfolding(crate::specs::Words::set_span_lem))]
pub fn set_span(tree: &mut [u32], n: NodeNumber, start: Place, end: Place)
    requires { 8 * n.0 + 16 ≤ length tree.old }
    ensures { tree.new ≡ set_span_lem tree.old n.0 start.0 end.0 }
{
    let i = word_of(n);
    tree[i + 1] = start.0;
    tree[i + 2] = end.0;
}

// Links node n to the next of its list.
#[tactic(auto, unfolding(crate::specs::Words::set_next_lem))]
pub fn set_next(tree: &mut [u32], n: NodeNumber, next: NodeNumber)
    requires { 8 * n.0 + 16 ≤ length tree.old }
    ensures { tree.new ≡ set_next_lem tree.old n.0 next.0 }
{
    tree[word_of(n) + 3] = next.0;
}

// ---- literals ----

// The node of a literal whose token stands from start to end: a Float keeps these two places (02, change 3). No token's Float is a NaN, which has more than
// one pattern of bits.
pub fn leaf_of(l: Literal, start: Place, end: Place) -> Content
    requires { T (has_bits l) }
    ensures { result ≡ leaf_of_lem start.0 end.0 l }
{
    match l {
        Literal::Bool(b) => Content::of(BOOL, b as u32, 0),
        Literal::Int(n) => {
            let h = Halves::from(n);
            Content::of(INT, h.low, h.high)
        }
        Literal::String(at, len) => Content::of(STRING, at, len),
        Literal::Float(x) => {
            let h = Halves::of_f64(x);
            Content {
                kind: FLOAT,
                p: h.low,
                q: h.high,
                r: start.0,
                s: end.0,
            }
        }
        Literal::None => Content::of(NONE, 0, 0),
    }
}

// ---- operators ----

// The operator of a sign's token, UnaryOp in enum order.
#[tactic(auto, unfolding(crate::specs::Operator::unary_op_lem))]
pub fn unary_op(code: u32) -> u32
    ensures { result ≡ unary_op_lem code }
{
    match code {
        token::NOT => 1,
        token::MINUS => 2,
        _ => 3,
    }
}

// The operator of a token between two operands, BinaryOp in enum order.
#[tactic(auto, unfolding(crate::specs::Operator::binary_op_lem))]
pub fn binary_op(code: u32) -> u32
    ensures { result ≡ binary_op_lem code }
{
    match code {
        token::PLUS => 1,
        token::MINUS => 2,
        token::STAR => 3,
        token::SLASH => 4,
        token::SLASH_SLASH => 5,
        token::PERCENT => 6,
        token::EQUAL_EQUAL => 7,
        token::NOT_EQUAL => 8,
        token::LESS => 9,
        token::LESS_EQUAL => 10,
        token::GREATER => 11,
        token::GREATER_EQUAL => 12,
        token::AND => 13,
        _ => 14,
    }
}

// ---- fields ----

// Which of p, q, r and s hold node numbers: 1, 2, 4 and 8, as a sum.
#[tactic(auto, unfolding(crate::specs::Mask::node_fields_lem))]
pub fn node_fields(kind: u32) -> u32
    ensures { result ≡ node_fields_lem kind }
{
    match kind {
        PROGRAM | RETURN | EXPR | ELSE | ATTRIBUTE | LIST | DICT | TUPLE | SET | TREE_SET => 1,
        UNARY => 2,
        WHILE | ASSIGN | ELIF | PAIR | CALL | INDEX | LAMBDA => 3,
        CLASS => 4,
        BINARY => 6,
        FOR | DEF | METHOD => 12,
        IF => 15,
        _ => 0,
    }
}
