// The codes of the tokens (src/lexer/token.rs), and three kinds of number that must not be taken for one another.
// specs/Code.antt has the same codes for the contracts.
//
// The codes are constants and no enum: they are the first word of a token in the slice that C lends, and the rules choose by one match on that word.
#![tactic(auto)]

pub const IF: u32 = 1;

pub const ELIF: u32 = 2;

pub const ELSE: u32 = 3;

pub const WHILE: u32 = 4;

pub const FOR: u32 = 5;

pub const IN: u32 = 6;

pub const DEF: u32 = 7;

pub const RETURN: u32 = 8;

pub const AND: u32 = 9;

pub const OR: u32 = 10;

pub const NOT: u32 = 11;

pub const CLASS: u32 = 12;

pub const BREAK: u32 = 13;

pub const CONTINUE: u32 = 14;

pub const PASS: u32 = 15;

pub const LAMBDA: u32 = 16;

pub const NONE: u32 = 17;

pub const BOOL: u32 = 18;

pub const INT: u32 = 19;

pub const STRING: u32 = 20;

pub const IDENTIFIER: u32 = 21;

pub const FLOAT: u32 = 22;

pub const PLUS: u32 = 23;

pub const MINUS: u32 = 24;

pub const STAR: u32 = 25;

pub const SLASH_SLASH: u32 = 26;

pub const SLASH: u32 = 27;

pub const PERCENT: u32 = 28;

pub const EQUAL_EQUAL: u32 = 29;

pub const NOT_EQUAL: u32 = 30;

pub const LESS: u32 = 31;

pub const LESS_EQUAL: u32 = 32;

pub const GREATER: u32 = 33;

pub const GREATER_EQUAL: u32 = 34;

pub const EQUAL: u32 = 35;

pub const LPAREN: u32 = 36;

pub const RPAREN: u32 = 37;

pub const LBRACKET: u32 = 38;

pub const RBRACKET: u32 = 39;

pub const LBRACE: u32 = 40;

pub const RBRACE: u32 = 41;

pub const COLON: u32 = 42;

pub const COMMA: u32 = 43;

pub const SEMICOLON: u32 = 44;

pub const DOT: u32 = 45;

pub const INDENT: u32 = 46;

pub const DEDENT: u32 = 47;

pub const NEWLINE: u32 = 48;

pub const EOF: u32 = 49;

// A byte's place in the source.
#[derive(Clone, Copy, Debug, PartialEq, Eq, PartialOrd, Ord)]
pub struct Place(pub u32);

// A token's number in the token list.
#[derive(Clone, Copy, Debug, PartialEq, Eq, PartialOrd, Ord)]
pub struct TokenNumber(pub u32);

// A node's number in the tree.
#[derive(Clone, Copy, Debug, PartialEq, Eq, PartialOrd, Ord)]
pub struct NodeNumber(pub u32);
