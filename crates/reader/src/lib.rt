// The reader of a source (src/lib.rs, `parse_source`): the questions 1 to 14 in their order, 12 no more among them, of which the first no decides, over a source
// and three lent slices. The last of them has three numbers, 14 to 16 (02, change 4).
//
// The areas are the fronts of the slices: for a source of n bytes 3(n+1) words of tokens, n bytes of text and 16n+16 words of tree. `parse_source` lends
// the areas alone to what works in them, so what lies beyond stays. Nothing is cleared before the work: each word of an area is written by it, or is
// zeroed once behind it.
#![tactic(auto)]

ghost use Rattle.std.specs.Prelude.{◌≡◌, ◌++◌, ◌*◌, ◌≤◌, length, take, drop, replicate};
ghost use Rattle.lexer.specs.Scan.{token_list};
ghost use Rattle.reader.specs.Answer as answer;
ghost use Rattle.reader.specs.Outcome.{header, of_scan, tree_area};
ghost use Rattle.reader.specs.Reads.{Reads};
ghost use Rattle.reader.specs.Steps.{Exact, Fills, Counted, Held, padded, Tells};

use leaves::Added;
use lexer::Scanned;
use source::{Reason, Refusal};

// The longest source that question 1 lets through.
pub const LONGEST: usize = 65536;

// The header's version: a Float keeps its token's span since 2 (02, change 3). specs/Outcome.antt has the same number.
pub const VERSION: u32 = 2;

// Accepted: the areas hold T tokens, N nodes and so many bytes of text; so many rules were opened.
#[derive(Clone, Copy)]
pub struct Tree {
    pub tokens: usize,
    pub nodes: usize,
    pub text: usize,
    pub openings: usize,
}

// Refused: why and where, with T, the nodes written and the rules opened till then. They are 0 where a question of 1 to 11 refuses, before the descent begins.
#[derive(Clone, Copy)]
pub struct Stop {
    pub refusal: Refusal,
    pub tokens: usize,
    pub nodes: usize,
    pub openings: usize,
}

// specs/Answer.antt has 01's six numbers of both.
pub type Answer = Result<Tree, Stop>;

// The eight words in front of the records.
fn put_header(tree: &mut [u32], n: usize, found: Tree)
    requires n_in_bounds { tree_area n ≤ length tree.old }
    requires counted { Counted n found }
    ensures { tree.new ≡ header n found.tokens found.text found.nodes found.openings ++ drop 8 tree.old }
{
    tree[0] = VERSION;
    tree[1] = found.nodes as u32;
    tree[2] = found.tokens as u32;
    tree[3] = found.text as u32;
    tree[4] = 8;
    tree[5] = (found.nodes - 1) as u32;
    tree[6] = found.openings as u32;
    tree[7] = n as u32;
}

// Accepted: the header, and zeros behind the records. Tokens and text stand as the scanner left them.
fn finish(n: usize, found: Tree, tree: &mut [u32])
    requires tree_len { length tree.old ≡ tree_area n }
    requires counted { Counted n found }
    ensures { tree.new ≡ padded (tree_area n) (header n found.tokens found.text found.nodes found.openings ++ take (8 * found.nodes) (drop 8 tree.old)) }
{
    put_header(tree, n, found);
    tree[8 * found.nodes + 8..].fill(0);
}

// Zeros in all of three slices, which are the areas here.
fn clear(tokens: &mut [u32], text: &mut [u8], tree: &mut [u32])
    ensures tokens_after { tokens.new ≡ replicate (length tokens.old) 0 }
    ensures text_after { text.new ≡ replicate (length text.old) 0 }
    ensures tree_after { tree.new ≡ replicate (length tree.old) 0 }
{
    tokens.fill(0);
    text.fill(0);
    tree.fill(0);
}

// Why a token of this code is refused, by 13 or by what was asked for there: the end is 15, a Newline or Dedent has what was asked for, and all else is 14.
fn stopped_by(asked: Reason, code: u32) -> Reason
    ensures { Tells asked code result }
{
    match code {
        _ if asked == Reason::TooDeep => asked,
        token::EOF => Reason::Cut,
        token::NEWLINE | token::DEDENT => asked,
        _ => Reason::Misfit,
    }
}

// Questions 13 and 14: the tree of the tokens that the scanner counted.
fn read_tokens(
    src: &[u8],
    count: usize,
    used: usize,
    tokens: &mut [u32],
    text: &mut [u8],
    tree: &mut [u32],
) -> Answer
    requires held { Held src.now count used tokens.old text.old }
    requires tree_len { length tree.old ≡ tree_area (length src.now) }
    ensures { Fills (of_scan src.now (token_list src.now)) (length src.now) result tokens.new text.new tree.new }
{
    let words = &tokens[..3 * (count + 1)];
    match stmt::program(src, words, tree) {
        Ok(Added(_, s)) => {
            let found = Tree {
                tokens: count,
                nodes: s.nodes as usize,
                text: used,
                openings: s.opened as usize,
            };
            finish(src.len(), found, tree);
            Ok(found)
        }
        Err(refused) => {
            let s = refused.state();
            let reason = stopped_by(refused.reason(), lookahead::code_at(words, s.at));
            let place = lookahead::start_at(words, s.at).0 as usize;
            clear(tokens, text, tree);
            Err(Stop {
                refusal: Refusal { reason, place },
                tokens: count,
                nodes: s.nodes as usize,
                openings: s.opened as usize,
            })
        }
    }
}

// A refusal by 1 to 11: no node is written, no rule opened.
fn no(reason: Reason, place: usize) -> Answer
    ensures { result ≡ answer.before (record { reason = reason; place = place }) }
{
    Err(Stop {
        refusal: Refusal { reason, place },
        tokens: 0,
        nodes: 0,
        openings: 0,
    })
}

// Questions 6 to 11, in slices that are the areas: the scanner leaves zeros in those of tokens and text.
fn read_areas(src: &[u8], tokens: &mut [u32], text: &mut [u8], tree: &mut [u32]) -> Answer
    requires { Exact src.now tokens.old text.old tree.old }
    ensures { Fills (of_scan src.now (token_list src.now)) (length src.now) result tokens.new text.new tree.new }
{
    match lexer::scan(src, tokens, text) {
        Ok(Scanned { count, text: used }) => read_tokens(src, count, used, tokens, text, tree),
        Err(Refusal { reason, place }) => {
            tree.fill(0);
            no(reason, place)
        }
    }
}

// Reads a source. `Reads` says what the answer is and what every word of the three slices is afterwards, in every case; nothing is asked of the caller.
pub fn parse_source(src: &[u8], tokens: &mut [u32], text: &mut [u8], tree: &mut [u32]) -> Answer
    ensures { Reads src.now result tokens.old text.old tree.old tokens.new text.new tree.new }
{
    let n = src.len();
    if LONGEST < n {
        return no(Reason::TooLong, 0);
    }
    let token_words = 3 * (n + 1);
    let tree_words = 16 * n + 16;
    if tokens.len() < token_words {
        return no(Reason::TokensTooSmall, 0);
    }
    if text.len() < n {
        return no(Reason::TextTooSmall, 0);
    }
    if tree.len() < tree_words {
        return no(Reason::TreeTooSmall, 0);
    }
    match utf8::utf8_error(src).found {
        Some(place) => no(Reason::NotUtf8, place),
        None => read_areas(
            src,
            &mut tokens[..token_words],
            &mut text[..n],
            &mut tree[..tree_words],
        ),
    }
}
