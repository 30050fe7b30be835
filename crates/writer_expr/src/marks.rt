// Operators, signs, brackets and commas.
ghost use Rattle.std.specs.Prelude.{◌≡◌, cond, [], ◌∷◌, ℕ, ◌+◌, ◌-◌, ◌*◌, ◌≤◌, ◌<◌, eqb, length};
ghost use Rattle.token.specs.Code as code;
ghost use Rattle.ast.specs.Kind as kind;
ghost use Rattle.ast.specs.Node.{none};
ghost use Rattle.rendered.specs.Spelled.{spelled_fixed};
ghost use Rattle.unparse.specs.Trees as tree;
ghost use Rattle.standard.specs.Text.{void_text};
ghost use Rattle.writing.specs.Wrote.{Wrote};
ghost use Rattle.writer_expr.specs.Levels.{operator_of, sign_of};
ghost use Rattle.writer_expr.specs.Laid.{kind_at};
ghost use Rattle.writer_expr.specs.Forms.{opens, closes, signs};

use crate::words::{kind_at, word_at};
use writing::Back;

// The code of a binary operator's token.
pub fn operator(op: u32) -> u32
    ensures { result ≡ operator_of op }
{
    match op {
        1 => token::PLUS,
        2 => token::MINUS,
        3 => token::STAR,
        4 => token::SLASH,
        5 => token::SLASH_SLASH,
        6 => token::PERCENT,
        7 => token::EQUAL_EQUAL,
        8 => token::NOT_EQUAL,
        9 => token::LESS,
        10 => token::LESS_EQUAL,
        11 => token::GREATER,
        12 => token::GREATER_EQUAL,
        13 => token::AND,
        _ => token::OR,
    }
}

// The code of a sign's.
fn sign(op: u32) -> u32
    ensures { result ≡ sign_of op }
{
    match op {
        1 => token::NOT,
        2 => token::MINUS,
        _ => token::PLUS,
    }
}

// The operand below the signs that end with node `end - 1`.
pub fn operand(tree: &[u32], end: usize) -> usize
    requires { (0 < end) × (8 * end + 8 ≤ length tree.now) }
    ensures { (result ≤ end) × (0 < result) × ((k : ℕ) → result < k → k ≤ end → kind_at tree.now k ≡ kind.Unary) }
{
    for node in (1..end).rev() {
        if kind_at(tree, node + 1) != ast::UNARY {
            return node + 1;
        }
    }
    1
}

// The signs of the nodes from j up to `end - 1`, the last of them first.
pub fn put_signs(tree: &[u32], back: &mut Back, j: usize, end: usize)
    requires { (j ≤ end) × (8 * end + 8 ≤ length tree.now) }
    ensures { Wrote (signs tree.now j (end - j)) back.old back.new }
{
    for k in j..end {
        back.put_then_space(sign(word_at(tree, k + 1, 4)));
    }
}

// The brackets of a List, Dict, Set or TreeSet.
#[tactic(auto, unfolding(crate::specs::Forms::opens, crate::specs::Forms::closes, rendered::specs::Spelled::spelled_fixed, raw_token::specs::Table::table))]
pub fn brackets(kind: u32) -> (&'static [u8], &'static [u8])
    ensures open { result.0.now ≡ opens kind }
    ensures close { result.1.now ≡ closes kind }
{
    match kind {
        ast::LIST => (b"[", b"]"),
        ast::TREE_SET => (b"t{", b"}"),
        _ => (b"{", b"}"),
    }
}

// The empty tuple.
#[tactic(auto, unfolding(rendered::specs::Spelled::spelled_fixed, raw_token::specs::Table::table))]
pub fn put_unit(back: &mut Back)
    ensures { Wrote (void_text tree.no_members) back.old back.new }
{
    back.put_bytes(b"())");
}

// The comma of a tuple of one, whose last member is its first.
pub fn put_comma(back: &mut Back, first: usize, last: usize)
    ensures { Wrote (cond (eqb last first) (spelled_fixed code.Comma) []) back.old back.new }
{
    if last == first {
        back.put_fixed(token::COMMA);
    }
}

// The space between `lambda` and its names, if it has any.
pub fn put_gap(back: &mut Back, first: u32)
    ensures { Wrote (cond (eqb first none) [] (32 ∷ [])) back.old back.new }
{
    if first != ast::NONE_NODE {
        back.put(b' ');
    }
}
