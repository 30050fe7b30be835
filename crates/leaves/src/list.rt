// The actions that change a node in place: a member's link, and a wider span.
ghost use Rattle.std.specs.Prelude.{List, [], ◌∷◌, ℕ, ◌+◌, ◌*◌, ◌≤◌, ◌<◌, length};
ghost use Rattle.pyhyeon.specs.Machine.{token, node, growing};
ghost use Rattle.pyhyeon.specs.Action.{list_join, group};
ghost use Rattle.leaves.specs.Contract.{Spot, Changes};

use crate::State;
use lookahead::{end_at, start_at};
use token::{NodeNumber, TokenNumber};

// A list that begins at the node n is linked to the one whose last node is `last`.
pub fn link(tree: &mut [u32], last: NodeNumber, n: NodeNumber, s: State)
    requires { (last.0 < s.nodes) × (8 * s.nodes + 8 ≤ length tree.old) }
    ensures { (src toks : List ℕ) (f l : ℕ) → Changes src toks list_join (growing n.0 l ∷ growing f last.0 ∷ []) (growing f l ∷ []) s tree.old tree.new }
{
    ast::set_next(tree, last, n);
}

// A node in parentheses spans them too: "(E) is E with the wider span" (01, Grammar).
pub fn widen(toks: &[u32], tree: &mut [u32], opener: TokenNumber, n: NodeNumber, s: State)
    requires spot { Spot toks.now tree.old s }
    requires opener_lt_at { (opener.0 < s.at.0) × (n.0 < s.nodes) }
    ensures { (src : List ℕ) → Changes src toks.now group (node n.0 ∷ token opener.0 ∷ []) (node n.0 ∷ []) s tree.old tree.new }
{
    let from = start_at(toks, opener);
    let to = end_at(toks, TokenNumber(s.at.0 - 1));
    ast::set_span(tree, n, from, to);
}
