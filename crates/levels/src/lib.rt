// What the five levels of operators share: O, A, C, S and P each read an operand, and while an operator of theirs stands next, another. What they make of
// it differs for C: O, A, S and P group left, and a chain of comparisons is an And of them.
#![tactic(auto)]

ghost use Rattle.std.specs.Prelude.{◌≡◌, List, ℕ, ◌≤◌};
ghost use Rattle.grammar.specs.Sets.{mem};
ghost use Rattle.lookahead.specs.Tokens.{eof_at, Tokens};
ghost use Rattle.leaves.specs.Contract.{added, Spot};
ghost use Rattle.levels.specs.Levels.{operators, Held, Joined, lengthened, Hung, Compared, Stands};

use leaves::{Added, Refused, State};
use token::{NodeNumber, TokenNumber};

// The levels of operators: O, A, C, S and P. The operand of each is the next of them, and that of P is U.
#[derive(Clone, Copy)]
pub enum Level {
    Or,
    And,
    Comparison,
    Sum,
    Product,
}

// What stands before an operand where that is not nothing of its level: an operator and the node of all before that.
#[derive(Clone, Copy)]
pub struct Left(pub TokenNumber, pub NodeNumber);

// What stands before an operand of comparisons: nothing; an operator and the operand before that; or an operator, the node of the comparisons so far and
// the last operand of these.
#[derive(Clone, Copy)]
pub enum Chain {
    Nothing,
    First(TokenNumber, NodeNumber),
    Further(TokenNumber, NodeNumber, NodeNumber),
}

// Whether the symbol is an operator of the level.
fn is_operator(level: Level, symbol: u32) -> bool
    ensures { result ≡ mem symbol (operators level) }
{
    match level {
        Level::Or => lookahead::is_symbol(symbol, token::OR),
        Level::And => lookahead::is_symbol(symbol, token::AND),
        Level::Comparison => lookahead::is_comparison(symbol),
        Level::Sum => lookahead::is_add(symbol),
        Level::Product => lookahead::is_multiply(symbol),
    }
}

// The operand n joined to what stands before it: a Binary where that is an operator, else the operand alone.
pub fn join(toks: &[u32], tree: &mut [u32], before: Option<Left>, n: NodeNumber, s: State) -> Added
    requires spot { Spot toks.now tree.old s }
    requires held { Held before s }
    ensures { (src : List ℕ) → Joined src toks.now before n s tree.old result tree.new }
{
    match before {
        None => Added(n, s),
        Some(Left(op, l)) => expr_leaves::put_binary(toks, tree, op, l, n, s),
    }
}

// The operand n compared with what stands before it: `a<b<c` is And(a<b, b<c), whose b is one node.
pub fn compare(toks: &[u32], tree: &mut [u32], before: Chain, n: NodeNumber, s: State) -> Added
    requires spot { Spot toks.now tree.old (added s) }
    requires hung { Hung before s }
    ensures { (src : List ℕ) → Compared src toks.now before n s tree.old result tree.new }
{
    match before {
        Chain::Nothing => Added(n, s),
        Chain::First(op, l) => expr_leaves::put_binary(toks, tree, op, l, n, s),
        Chain::Further(op, l, x) => {
            let Added(m, up) = expr_leaves::put_binary(toks, tree, op, x, n, s);
            expr_leaves::put_and(toks, tree, l, m, up)
        }
    }
}

// What stands before the next operand, behind the operator `op`: l is the node of all before that, and n the operand right before it.
pub fn lengthen(before: Chain, op: TokenNumber, l: NodeNumber, n: NodeNumber) -> Chain
    ensures { result ≡ lengthened before op l n }
{
    match before {
        Chain::Nothing => Chain::First(op, l),
        Chain::First(_, _) => Chain::Further(op, l, n),
        Chain::Further(_, _, _) => Chain::Further(op, l, n),
    }
}

// What stands behind the operand that ends at s: nothing of its level; or an operator and what can begin an operand, with the state there. Where nothing that
// can stands behind an operator, that is refused.
pub fn look(src: &[u8], toks: &[u32], level: Level, s: State) -> Result<Option<State>, Refused>
    requires tokens { Tokens src.now toks.now }
    requires at_bound { s.at.0 ≤ eof_at toks.now }
    ensures { Stands src.now toks.now level s result }
{
    if !is_operator(level, lookahead::symbol_at(src, toks, s.at)) {
        return Ok(None);
    }
    let on = leaves::past(s);
    if !lookahead::begins_u(lookahead::symbol_at(src, toks, on.at)) {
        return Err(Refused::Missing(on));
    }
    Ok(Some(on))
}
