// The second pass: whether `match`, `case` and `type` are keywords, told by a walk ahead to the Newline, the end or an ending.

#![tactic(auto)]

ghost use Rattle.std.specs.Prelude.{◌≡◌, List, true, false, ℕ, ◌+◌, ◌^◌, ◌<◌, ◌≤◌, length, nat_abs};
ghost use Rattle.indentation.specs.declared.Level.{Level};
ghost use Rattle.rounds.specs.Rounds.{state, view};
ghost use Rattle.soft_keywords.specs.SoftKeywords.{stands_for_name, stays_keyword, soft_kind, line_start_after};
ghost use Rattle.soft_keywords.specs.Promises.{or_moved, recs_from, far, decided, Begins, Takes};
ghost use Rattle.soft_keywords.specs.declared.Search.TheVariants.{Colon, Equals};
ghost use Rattle.token.specs.Kinds as K;

use rounds::NextToken;

// A search that a soft keyword begins, by the kinds of the tokens that follow: for the colon of `match` and `case`, with the brackets open,
// whether no token came yet and whether a lambda waits for its colon; for the name after `type`; for the `=` after that, with the count of
// `[` less `]`, which may fall below zero; or what it has decided.
#[derive(Clone, Copy)]
pub enum Search {
    Colon(usize, bool, bool),
    Name,
    Equals(i64),
    Decided(bool),
}

// A Name, or a soft keyword in its place.
#[tactic(auto, using(choice::proofs::Laws::tests), unfolding(crate::specs::SoftKeywords::stands_for_name))]
fn stands_for_name(k: u32) -> bool
    ensures { stands_for_name k ≡ result }
{
    k == token::NAME || token::FIRST_SOFT <= k
}

// The search that the soft keyword of kind `k` begins.
pub fn search_for(k: u32) -> Search
    ensures { Begins k result }
{
    if k < token::TYPE {
        return Search::Colon(0, true, false);
    }
    Search::Name
}

// One token more of the search for a colon.
fn colon_after(nest: usize, first: bool, lambda: bool, k: u32) -> Search
    requires { nest + 1 < 2 ^ 63 }
    ensures { Takes (Colon nest first lambda) k result }
{
    if k == token::NEWLINE {
        return Search::Decided(false);
    }
    let after = lexer::nest_after(nest, k);
    if 0 < nest {
        return Search::Colon(after, false, lambda);
    }
    if k == token::COLON {
        if first || lambda {
            return Search::Colon(0, false, false);
        }
        return Search::Decided(true);
    }
    if k == token::LAMBDA {
        return Search::Colon(0, false, true);
    }
    Search::Colon(after, false, lambda)
}

// One token more of the search for an `=`: square brackets are passed, and above zero any token.
fn equals_after(count: i64, k: u32) -> Search
    requires { nat_abs count + 1 < 2 ^ 63 }
    ensures { Takes (Equals count) k result }
{
    if k == token::LSQB {
        return Search::Equals(count + 1);
    }
    if k == token::RSQB {
        return Search::Equals(count - 1);
    }
    if k == token::NEWLINE {
        return Search::Decided(false);
    }
    if 0 < count {
        return Search::Equals(count);
    }
    if count < 0 {
        return Search::Decided(false);
    }
    Search::Decided(k == token::EQUAL)
}

// One token more.
pub fn search_after(x: Search, k: u32) -> Search
    requires { far x + 1 < 2 ^ 63 }
    ensures { Takes x k result }
{
    match x {
        Search::Colon(nest, first, lambda) => colon_after(nest, first, lambda, k),
        Search::Name => {
            if stands_for_name(k) {
                return Search::Equals(0);
            }
            Search::Decided(false)
        }
        Search::Equals(count) => equals_after(count, k),
        Search::Decided(b) => Search::Decided(b),
    }
}

// What it comes to where the line's tokens are used up: no keyword, unless it has decided.
#[tactic(auto, using(crate::proofs::LookAheads::undecided), unfolding(crate::specs::Promises::decided))]
pub fn decided(x: Search) -> bool
    ensures { decided x ≡ result }
{
    match x {
        Search::Decided(b) => b,
        Search::Colon(_, _, _) | Search::Name | Search::Equals(_) => false,
    }
}

// Whether the soft keyword of kind `k` at a line's start, which ends at `at`, stays one.
fn stays_keyword(s: &[u8], full: bool, at: usize, k: u32) -> bool
    requires { at ≤ length s.now }
    ensures { (ls : List Level) → stays_keyword k (recs_from full s.now at 0 ls) ≡ result }
{
    let mut i = at;
    let mut nest: usize = 0;
    let mut x = search_for(k);
    loop {
        let found = rounds::next_token(s, full, i, nest);
        let token = found.token;
        match token {
            NextToken::Tok(m, _, e, n) => {
                x = search_after(x, m);
                if let Search::Decided(b) = x {
                    return b;
                }
                i = e;
                nest = n;
            }
            NextToken::Newline(_, _) | NextToken::End(_) | NextToken::Error(_, _) => {
                return decided(x);
            }
        }
    }
}

// The kind after the pass of a token of kind `k` that ends at `at`; `line` if a line starts with it.
pub fn soft_kind(s: &[u8], full: bool, at: usize, line: bool, k: u32) -> u32
    requires { at ≤ length s.now }
    ensures { (nest : ℕ) (ls : List Level) → (line ≡ true → K.first_soft ≤ k → nest ≡ 0) → result ≡ soft_kind line k (view full s.now (state at false nest ls)).recs }
{
    if k < token::FIRST_SOFT {
        return k;
    }
    if line && stays_keyword(s, full, at, k) {
        return k;
    }
    token::NAME
}

// What holds at once, or after so many Indents or Dedents: so a soft keyword may come behind them.
pub fn or_moved(at_once: bool, moved: usize) -> bool
    ensures { result ≡ or_moved at_once moved }
{
    at_once || moved != 0
}

// Whether a soft keyword may come after a token: a note changes nothing.
pub fn line_start_after(line: bool, k: u32) -> bool
    ensures { result ≡ line_start_after line k }
{
    if lexer::is_note(k) {
        line
    } else {
        k <= token::DEDENT
    }
}
