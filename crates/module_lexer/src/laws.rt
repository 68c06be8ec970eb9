//! Laws of tokens, as the contracts of functions that do nothing.

ghost use Rattle.std.specs.Prelude.{◌≡◌, ℕ, List, length};
ghost use Rattle.std.specs.List.{AllByRecursion};
ghost use Rattle.module_lexer.specs.Tokens.{HasTokens, IsTokenOf, InOrder};
ghost use Rattle.module_lexer.specs.Faults.{HasLexFault};
ghost use Rattle.module_lexer.specs.declared.token.Token.{Token};
ghost use Rattle.module_lexer.specs.declared.reason.SourceReason.{SourceReason};

/// A text has at most one reading: its tokens, or else one fault.
pub fn one_reading()
    ensures tokens { (text : List ℕ) (tokens others : List Token)
        → HasTokens text tokens → HasTokens text others → tokens ≡ others }
    ensures never_both { (text : List ℕ) (tokens : List Token) (line : ℕ) (reason : SourceReason)
        → HasTokens text tokens → HasLexFault text line reason → ⊥ }
    ensures line { (text : List ℕ) (line another : ℕ) (reason other : SourceReason)
        → HasLexFault text line reason → HasLexFault text another other → line ≡ another }
    ensures reason { (text : List ℕ) (line another : ℕ) (reason other : SourceReason)
        → HasLexFault text line reason → HasLexFault text another other → reason ≡ other }
{}

/// The spans of a text's tokens stand in order within the text, and each token's text is its slice.
pub fn tokens_in_order()
    ensures spans { (text : List ℕ) (tokens : List Token)
        → HasTokens text tokens → InOrder 0 (length text) tokens }
    ensures slices { (text : List ℕ) (tokens : List Token)
        → HasTokens text tokens → AllByRecursion (IsTokenOf text) tokens }
{}
