// t, outside brackets: E separated by commas, trailing allowed.
ghost use Rattle.std.specs.Prelude.{[], ◌∷◌, ◌<◌};
ghost use Rattle.pyhyeon.specs.Machine.{growing};
ghost use Rattle.pyhyeon.specs.Tables.{t_joined};
ghost use Rattle.leaves.specs.Contract.{a_node, Parts, Ready};
ghost use Rattle.expr.specs.Parts.{t_on};

use crate::{enter, rest};
use leaves::{Added, Parsed, State};
use token::NodeNumber;

// t: E separated by commas. One E alone stays that E; a comma makes it a Tuple.
pub fn comma_list(src: &[u8], toks: &[u32], tree: &mut [u32], left: u32, s: State) -> Parsed
    requires { Ready src.now toks.now tree.old s 3 }
    ensures { Parts src.now toks.now left t_joined [] a_node s tree.old result tree.new }
{
    let Added(n, after) = enter(src, toks, tree, left, s)?;
    if lookahead::is_symbol(lookahead::symbol_at(src, toks, after.at), token::COMMA) {
        comma_rest(src, toks, tree, left, n, after)
    } else {
        Ok(Added(n, after))
    }
}

// t from its first comma on, behind the member `first`: the other members, and the Tuple.
fn comma_rest(
    src: &[u8],
    toks: &[u32],
    tree: &mut [u32],
    left: u32,
    first: NodeNumber,
    s: State,
) -> Parsed
    requires ready { Ready src.now toks.now tree.old s 1 }
    requires first_lt_nodes { first.0 < s.nodes }
    ensures { Parts src.now toks.now left t_on (growing first.0 first.0 ∷ []) a_node s tree.old result tree.new }
{
    let Added(head, after) = rest(src, toks, tree, left, false, first, first, s)?;
    Ok(expr_leaves::put_tuple(toks, tree, head, after))
}
