// Texts that never change: keywords, operators, brackets and marks, and the truth values.
ghost use Rattle.std.specs.Prelude.{◌≡◌, [], ◌∷◌, ◌++◌, ◌+◌, ◌≤◌, ◌<◌, eqb, length};
ghost use Rattle.rendered.specs.Spelled.{spelled_fixed, spelled_bool};
ghost use Rattle.writing.specs.Wrote.{Wrote};

use crate::back::Back;

// The text of a keyword. Bool has two texts, of which the first stands here.
#[tactic(auto, unfolding(rendered::specs::Spelled::spelled_fixed, raw_token::specs::Table::table))]
fn keyword(code: u32) -> &'static [u8]
    requires { code ≤ 18 }
    ensures { result.now ≡ spelled_fixed code }
{
    match code {
        token::IF => b"if",
        token::ELIF => b"elif",
        token::ELSE => b"else",
        token::WHILE => b"while",
        token::FOR => b"for",
        token::IN => b"in",
        token::DEF => b"def",
        token::RETURN => b"return",
        token::AND => b"and",
        token::OR => b"or",
        token::NOT => b"not",
        token::CLASS => b"class",
        token::BREAK => b"break",
        token::CONTINUE => b"continue",
        token::PASS => b"pass",
        token::LAMBDA => b"lambda",
        token::NONE => b"None",
        token::BOOL => b"True",
        _ => b"",
    }
}

// The text of an operator, a bracket, a mark or the line feed, and none for any other code.
#[tactic(auto, unfolding(rendered::specs::Spelled::spelled_fixed, raw_token::specs::Table::table))]
fn mark(code: u32) -> &'static [u8]
    requires { 18 < code }
    ensures { result.now ≡ spelled_fixed code }
{
    match code {
        token::PLUS => b"+",
        token::MINUS => b"-",
        token::STAR => b"*",
        token::SLASH_SLASH => b"//",
        token::SLASH => b"/",
        token::PERCENT => b"%",
        token::EQUAL_EQUAL => b"==",
        token::NOT_EQUAL => b"!=",
        token::LESS => b"<",
        token::LESS_EQUAL => b"<=",
        token::GREATER => b">",
        token::GREATER_EQUAL => b">=",
        token::EQUAL => b"=",
        token::LPAREN => b"(",
        token::RPAREN => b")",
        token::LBRACKET => b"[",
        token::RBRACKET => b"]",
        token::LBRACE => b"{",
        token::RBRACE => b"}",
        token::COLON => b":",
        token::COMMA => b",",
        token::SEMICOLON => b";",
        token::DOT => b".",
        token::NEWLINE => b"\n",
        _ => b"",
    }
}

impl Back<'_> {
    // The text of a token's code, by crate `token`.
    pub fn put_fixed(&mut self, code: u32)
        ensures { Wrote (spelled_fixed code) self.old self.new }
    {
        if code <= token::BOOL {
            self.put_bytes(keyword(code));
        } else {
            self.put_bytes(mark(code));
        }
    }

    // The same with a space behind it.
    pub fn put_then_space(&mut self, code: u32)
        ensures { Wrote (spelled_fixed code ++ 32 ∷ []) self.old self.new }
    {
        self.put(b' ');
        self.put_fixed(code);
    }

    // The same with a space on either side.
    pub fn put_spaced(&mut self, code: u32)
        ensures { Wrote (32 ∷ (spelled_fixed code ++ 32 ∷ [])) self.old self.new }
    {
        self.put_then_space(code);
        self.put(b' ')
    }

    // A truth value by its word, which is 1 for True.
    pub fn put_bool(&mut self, p: u32)
        ensures { Wrote (spelled_bool (eqb p 1)) self.old self.new }
    {
        if p == 1 {
            self.put_bytes(b"True");
        } else {
            self.put_bytes(b"False");
        }
    }
}
