// What a line says, from the back: its expressions, names and keyword.
ghost use Rattle.std.specs.Prelude.{◌≡◌, List, ℕ, ◌+◌, ◌*◌, ◌≤◌, ◌<◌, length};
ghost use Rattle.unparse.specs.Trees.{Tree, list, Name};
ghost use Rattle.standard.specs.Bare.{head_b};
ghost use Rattle.standard.specs.Plant.{plant};
ghost use Rattle.writing.specs.Wrote.{Wrote};
ghost use Rattle.standard.specs.Text.{after};
ghost use Rattle.writer_expr.specs.Laid.{word_at, Stands, Some, SomeList};
ghost use Rattle.writer_expr.specs.Put.{Put, Puts};
ghost use Rattle.writer_stmt.specs.Words.{alone_of, name_at, NameIn, return_text, asked_text, for_text, def_text, Two, SomeWords, PutsWords};

use writer_expr::Rule;
use writer_expr::words::{kind_at, word_at};
use writing::Back;

#[tactic(auto, unfolding(crate::specs::Words::alone_of))]
fn alone(kind: u32) -> u32
    ensures { result ≡ alone_of kind }
{
    match kind {
        ast::BREAK => token::BREAK,
        ast::CONTINUE => token::CONTINUE,
        ast::PASS => token::PASS,
        _ => token::ELSE,
    }
}

fn put_return(src: &[u8], text: &[u8], tree: &[u32], back: &mut Back, end: usize) -> usize
    requires { Some src.now text.now tree.now end }
    ensures { Puts src.now text.now tree.now return_text end back.old back.new result }
{
    let first = writer_expr::put_whole(src, text, tree, back, end);
    back.put_then_space(token::RETURN);
    first
}

// The condition of an If, a While or an Elif.
fn put_asked(src: &[u8], text: &[u8], tree: &[u32], back: &mut Back, end: usize, code: u32) -> usize
    requires { Some src.now text.now tree.now end }
    ensures { Puts src.now text.now tree.now (asked_text code) end back.old back.new result }
{
    let first = writer_expr::put_expr(src, text, tree, back, end, Rule::E);
    back.put_then_space(code);
    first
}

fn put_assign(src: &[u8], text: &[u8], tree: &[u32], back: &mut Back, end: usize) -> usize
    requires { (b : ℕ) × (w : List ℕ) × Two src.now text.now tree.now b end w }
    ensures { (b : ℕ) (w : List ℕ) → Two src.now text.now tree.now b end w → Put w b back.old back.new result }
{
    let target = writer_expr::put_whole(src, text, tree, back, end);
    back.put_spaced(token::EQUAL);
    writer_expr::put_whole(src, text, tree, back, target)
}

// The name of node `node - 1`, with a keyword before it.
fn put_name(src: &[u8], tree: &[u32], back: &mut Back, node: usize, code: u32)
    requires { (0 < node) × (8 * node + 8 ≤ length tree.now) × NameIn src.now tree.now node }
    ensures { Wrote (after code (name_at src.now tree.now node)) back.old back.new }
{
    back.put_part(src, word_at(tree, node, 4), word_at(tree, node, 5));
    back.put_then_space(code);
}

fn put_for(src: &[u8], text: &[u8], tree: &[u32], back: &mut Back, end: usize, node: usize) -> usize
    requires some { Some src.now text.now tree.now end }
    requires node_nonzero { (0 < node) × (8 * node + 8 ≤ length tree.now) × NameIn src.now tree.now node }
    ensures { Puts src.now text.now tree.now (for_text (name_at src.now tree.now node)) end back.old back.new result }
{
    let first = writer_expr::put_expr(src, text, tree, back, end, Rule::E);
    back.put_spaced(token::IN);
    put_name(src, tree, back, node, token::FOR);
    first
}

// A Def's or a Method's.
fn put_def(src: &[u8], text: &[u8], tree: &[u32], back: &mut Back, end: usize, node: usize) -> usize
    requires some_list { SomeList src.now text.now tree.now end (word_at tree.now node 6) }
    requires node_nonzero { (0 < node) × (8 * node + 8 ≤ length tree.now) × NameIn src.now tree.now node }
    ensures { (b : ℕ) (l : Tree (list Name)) → Stands src.now text.now tree.now b l end → word_at tree.now node 6 ≡ head_b b (plant l) → Put (def_text (name_at src.now tree.now node) l) b back.old back.new result }
{
    let first = word_at(tree, node, 6);
    back.put_fixed(token::RPAREN);
    let names = writer_expr::put_list(src, text, tree, back, end, first);
    back.put_fixed(token::LPAREN);
    put_name(src, tree, back, node, token::DEF);
    names
}

// What the line of node `node - 1` says: its parts end before node `end`.
pub fn put_words(
    src: &[u8],
    text: &[u8],
    tree: &[u32],
    back: &mut Back,
    end: usize,
    node: usize,
) -> usize
    requires some_words { SomeWords src.now text.now tree.now end node }
    requires node_nonzero { (0 < node) × (8 * node + 8 ≤ length tree.now) }
    ensures { PutsWords src.now text.now tree.now (λ w. w) end node back.old back.new result }
{
    let kind = kind_at(tree, node);
    match kind {
        ast::EXPR => writer_expr::put_whole(src, text, tree, back, end),
        ast::RETURN => put_return(src, text, tree, back, end),
        ast::ASSIGN => put_assign(src, text, tree, back, end),
        ast::IF => put_asked(src, text, tree, back, end, token::IF),
        ast::WHILE => put_asked(src, text, tree, back, end, token::WHILE),
        ast::ELIF => put_asked(src, text, tree, back, end, token::ELIF),
        ast::FOR => put_for(src, text, tree, back, end, node),
        ast::DEF | ast::METHOD => put_def(src, text, tree, back, end, node),
        ast::CLASS => {
            put_name(src, tree, back, node, token::CLASS);
            end
        }
        _ => {
            back.put_fixed(alone(kind));
            end
        }
    }
}
