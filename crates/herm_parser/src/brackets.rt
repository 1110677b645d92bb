//! The bound on the brackets that are open at once.
ghost use Rattle.std.specs.Prelude.{◌≡◌, ◌≤◌, ◌<◌, ◌^◌, ℕ, Option, Some, suc, IfSome, IfNone};
ghost use Rattle.herm_readers.specs.BracketBalance.{too_deep, too_deep_step};
ghost use Rattle.herm_syntax.specs.Symbols.{side};
ghost use Rattle.herm_parser.specs.Gives.{kinds};
ghost use Rattle.herm_parser.specs.BracketDepth.{most_brackets};

use herm_alphabet::{Mark, Token, TokenKind};

/// How many brackets may be open at once.
#[tactic(auto, unfolding(crate::specs::BracketDepth::most_brackets))]
pub fn most_brackets() -> usize
    ensures exact { result ≡ most_brackets }
    ensures small { result ≤ 64 }
{
    64
}

/// For how many brackets there is room behind a token, none where it opens one too many. What closes makes room.
fn room_behind(room: usize, kind: &TokenKind) -> Option<usize>
    requires { room < 2 ^ 63 }
    ensures some { IfSome result (λ r. (further : ℕ → Option ℕ) (left : ℕ) → too_deep_step (side kind.now) further left room ≡ further r) }
    ensures grows { IfSome result (λ r. r ≤ suc room) }
    ensures none { IfNone result ((further : ℕ → Option ℕ) (left : ℕ) → too_deep_step (side kind.now) further left room ≡ Some left) }
{
    match kind {
        TokenKind::Sign(Mark::ParenOpen | Mark::BraceOpen | Mark::BracketOpen) => {
            if room == 0 {
                return None;
            }
            return Some(room - 1);
        }
        TokenKind::Sign(Mark::ParenClose | Mark::BraceClose | Mark::BracketClose) => {
            return Some(room + 1);
        }
        _ => return Some(room),
    }
}

/// The number of tokens left at the first bracket that is open too many, that one with them.
#[tactic(auto, unfolding(crate::specs::BracketDepth::most_brackets))]
pub fn too_deep(tokens: &[Token]) -> Option<usize>
    ensures { result ≡ too_deep side (kinds tokens.now) most_brackets }
{
    let mut room = most_brackets();
    let mut rest = tokens;
    'tokens: while let [first, behind @ ..] = rest {
        match room_behind(room, &first.kind) {
            Some(more) => {
                room = more;
                rest = behind;
            }
            None => return Some(rest.len()),
        }
    }
    None
}
