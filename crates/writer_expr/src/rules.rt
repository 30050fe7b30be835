// The rules that texts fit (01, Grammar).
ghost use Rattle.std.specs.Prelude.{◌≡◌, min, true, false, List, ℕ, ◌+◌, ◌*◌, ◌≤◌, ◌<◌, length};
ghost use Rattle.unparse.specs.Trees.{Tree, a, Expr};
ghost use Rattle.writer_expr.specs.Levels.{number, rank_of, rule_of_lem, left_of};
ghost use Rattle.writer_expr.specs.Laid.{Stands};
ghost use Rattle.writer_expr.specs.Forms.{Linked, rule_at_lem};

use crate::words::{kind_at, word_at};

// The loosest first: a text that fits a rule fits those before it.
#[derive(Clone, Copy, PartialEq, Eq, PartialOrd, Ord)]
pub enum Rule {
    E,
    O,
    A,
    C,
    S,
    P,
    U,
    F,
}

impl Rule {
    // The rule of an operator.
    #[tactic(auto, unfolding(crate::specs::Levels::rule_of_lem))]
    pub fn of(op: u32) -> Rule
        ensures { number result ≡ rule_of_lem op }
    {
        match op {
            0..=2 => Rule::S,
            3..=6 => Rule::P,
            7..=12 => Rule::C,
            13 => Rule::A,
            _ => Rule::O,
        }
    }

    // The rule of its left operand.
    #[tactic(auto, unfolding(crate::specs::Levels::left_of))]
    pub fn left(self) -> Rule
        ensures { number result ≡ left_of (number self) }
    {
        match self {
            Rule::C => Rule::S,
            _ => self,
        }
    }

    // The next one, which its right operand must fit.
    pub fn next(self) -> Rule
        ensures { number result ≡ min (number self + 1) 7 }
    {
        match self {
            Rule::E => Rule::O,
            Rule::O => Rule::A,
            Rule::A => Rule::C,
            Rule::C => Rule::S,
            Rule::S => Rule::P,
            Rule::P => Rule::U,
            Rule::U | Rule::F => Rule::F,
        }
    }

    // The rule of a node that is no chain's.
    #[tactic(auto, unfolding(crate::specs::Forms::rule_at_lem))]
    fn of_kind(kind: u32, op: u32) -> Rule
        ensures { number result ≡ rule_at_lem kind op }
    {
        match kind {
            ast::BINARY => Rule::of(op),
            ast::UNARY => Rule::U,
            ast::LAMBDA => Rule::E,
            _ => Rule::F,
        }
    }

    // The rule that the text of node `end - 1` fits.
    pub fn of_node(tree: &[u32], end: usize) -> Rule
        requires { (0 < end) × (8 * end + 8 ≤ length tree.now) }
        ensures { (src txt : List ℕ) (b : ℕ) (x : Tree (a Expr)) → Stands src txt tree.now b x end → rank_of x ≡ number result }
    {
        if is_link(tree, end) {
            return Rule::C;
        }
        Rule::of_kind(kind_at(tree, end), word_at(tree, end, 4))
    }
}

// Node `end - 1` is the And of a chain: its right part is a comparison, whose left part is in its own left part.
pub fn is_link(tree: &[u32], end: usize) -> bool
    requires { (0 < end) × (8 * end + 8 ≤ length tree.now) }
    ensures { (result ≡ true → Linked tree.now end) × (result ≡ false → Linked tree.now end → ⊥) }
{
    if end < 2 {
        return false;
    }
    if kind_at(tree, end) != ast::BINARY {
        return false;
    }
    if word_at(tree, end, 4) != 13 {
        return false;
    }
    if kind_at(tree, end - 1) != ast::BINARY {
        return false;
    }
    let compare = word_at(tree, end - 1, 4);
    if !matches!(compare, 7..=12) {
        return false;
    }
    let middle = word_at(tree, end - 1, 5);
    middle < word_at(tree, end, 5)
}
