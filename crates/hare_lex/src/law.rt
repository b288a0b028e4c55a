//! Laws of the definition of tokens.

ghost use Rattle.std.specs.Prelude.{◌≤◌, List, ℕ, length};
ghost use Rattle.hare_tree.specs.declared.token.Token.{Token};
ghost use Rattle.hare_tree.specs.Spelling.{IsSpelling};
ghost use Rattle.hare_lex.specs.Order.{TokensAreInOrder, KeptAreInOrder};
ghost use Rattle.hare_lex.specs.Sizes.{TokensAreFew, KeptAreFew};

/// The law that the text of a token is never longer than its spelling.
pub fn text_is_no_longer()
    ensures { (t : Token) (s : List ℕ) → IsSpelling t s → length t.text ≤ length s }
{}

/// The law that the tokens of a file are of the file and stand in their order, and so do those that are kept before a break.
pub fn tokens_are_in_order()
    ensures tokens { TokensAreInOrder }
    ensures kept { KeptAreInOrder }
{}

/// The law that the tokens of a file are at most as many as its bytes and one, and that their strings have together at most as many bytes
/// as the file; and likewise those that are kept before a break.
pub fn tokens_are_few()
    ensures tokens { TokensAreFew }
    ensures kept { KeptAreFew }
{}
