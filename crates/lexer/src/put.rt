// Tokens as words: code, start and end, three words a token.
ghost use Rattle.std.specs.Prelude.{◌≡◌, [], ◌∷◌, ◌+◌, ◌*◌, ◌^◌, ◌≤◌, ◌<◌, length, replicate};
ghost use Rattle.std.proofs.lemmas.List.Edits.{sets};
ghost use Rattle.lexer.specs.Scan.{mark};
ghost use Rattle.lexer.specs.Words.{words};

// Writes the words of token number `count`.
pub fn put_token(tokens: &mut [u32], count: usize, code: u32, start: usize, end: usize)
    requires { (3 * count + 2 < length tokens.old) × (start < 2 ^ 32) × (end < 2 ^ 32) }
    ensures { tokens.new ≡ sets tokens.old (3 * count) (code ∷ start ∷ end ∷ []) }
{
    let at = 3 * count;
    tokens[at..at + 3].copy_from_slice(&[code, start as u32, end as u32]);
}

// Writes the words of n tokens that are alike, from token number `count` on.
pub fn put_marks(tokens: &mut [u32], count: usize, n: usize, code: u32, start: usize, end: usize)
    requires { (3 * (count + n) ≤ length tokens.old) × (start < 2 ^ 32) × (end < 2 ^ 32) }
    ensures { tokens.new ≡ sets tokens.old (3 * count) (words (replicate n (mark code start end))) }
{
    for at in count..count + n {
        put_token(tokens, at, code, start, end);
    }
}
