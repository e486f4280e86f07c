// The bytes of a sheet: what each is, and which may stand at a place. Refusals 1 and 2 arise here and nowhere
// else.
ghost use Rattle.std.specs.Prelude.{◌≡◌, ℕ, Bool};
ghost use Rattle.sheet_lines.specs.Bytes.{byte_at, is_digit, is_space, is_line_feed, is_kind, is_heard};
ghost use Rattle.sheet_lines.specs.Classes.{class_of, Tests};
ghost use Rattle.sheet_lines.specs.Pieces.{found_of};

use crate::Piece;
use limits::{Refusal, Refused};

// What a byte of a sheet can be. 0 and 1 are digits, and are heard on the bus too.
#[derive(Clone, Copy)]
enum Class {
    Bit,
    Digit,
    Space,
    Feed,
    Kind,
    Silence,
    Other,
}

#[tactic(auto, unfolding(crate::specs::Classes::class_of))]
fn classify(b: u8) -> Class
    ensures { result ≡ class_of b }
{
    match b {
        crate::HEARD_ZERO..=crate::HEARD_ONE => Class::Bit,
        b'2'..=b'9' => Class::Digit,
        text::SPACE => Class::Space,
        text::LINE_FEED => Class::Feed,
        crate::RECEIVE..=crate::SEND | crate::DARK => Class::Kind,
        crate::HEARD_SILENCE => Class::Silence,
        _ => Class::Other,
    }
}

// Which byte may stand where, by its class: one expression each, which a parameter for the class would only wrap.
#[tactic(auto, using(crate::proofs::ByteLaws::digits))]
pub fn is_digit(b: u8) -> bool
    ensures { result ≡ is_digit b }
{
    matches!(classify(b), Class::Bit | Class::Digit)
}

#[tactic(auto, using(crate::proofs::ByteLaws::spaces))]
pub fn is_space(b: u8) -> bool
    ensures { result ≡ is_space b }
{
    matches!(classify(b), Class::Space)
}

#[tactic(auto, using(crate::proofs::ByteLaws::feeds))]
pub fn is_line_feed(b: u8) -> bool
    ensures { result ≡ is_line_feed b }
{
    matches!(classify(b), Class::Feed)
}

#[tactic(auto, using(crate::proofs::ByteLaws::kinds))]
pub fn is_kind(b: u8) -> bool
    ensures { result ≡ is_kind b }
{
    matches!(classify(b), Class::Kind)
}

#[tactic(auto, using(crate::proofs::ByteLaws::bus_marks))]
pub fn is_heard(b: u8) -> bool
    ensures { result ≡ is_heard b }
{
    matches!(classify(b), Class::Bit | Class::Silence)
}

// The byte at a place, where it passes the test of what can stand there.
#[tactic(auto, unfolding(crate::specs::Bytes::byte_at))]
pub fn byte<F: Fn(u8) -> bool>(s: &[u8], at: usize, can: F) -> Piece<u8>
    ghost may: { ℕ → Bool }
    requires called { F.IsAlwaysCallable can }
    requires tests { Tests (F.post can) may }
    ensures { found_of result ≡ byte_at may s.now at }
{
    let Some(&b) = s.get(at) else {
        return Err(Refusal::EndsEarly.at(s.len()));
    };
    if can(b) {
        Ok((b, at + 1))
    } else {
        Err(Refusal::WrongByte.at(at))
    }
}
