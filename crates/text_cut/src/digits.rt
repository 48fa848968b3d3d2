// Leading digits.
ghost use Rattle.std.specs.Prelude.{◌≡◌, ◌≤◌, length, take, drop, not};
ghost use Rattle.std.specs.Char.{is_ascii_digit};
ghost use Rattle.std.specs.List.{position};
ghost use Rattle.text_cut.specs.Digits.{digits_before as digits_before_in};

// The offset of the first byte that is no digit.
fn first_other(text: &[u8]) -> Option<usize>
    ensures { result ≡ position (λ b. not (is_ascii_digit b)) text.now }
{
    text.iter().position(|b| !b.is_ascii_digit())
}

// How many digits stand in front.
#[tactic(auto, using(crate::proofs::PositionLaws::none_is_end), unfolding(crate::specs::Digits::digits_before))]
fn digits_before(text: &[u8]) -> usize
    ensures value { result ≡ digits_before_in text.now }
    ensures within { result ≤ length text.now }
{
    match first_other(text) {
        Some(i) => i,
        None => text.len(),
    }
}

/// The digits in front, and what stands behind them.
pub fn split_digits(text: &[u8]) -> (&[u8], &[u8])
    ensures digits { result.0.now ≡ take (digits_before_in text.now) text.now }
    ensures rest { result.1.now ≡ drop (digits_before_in text.now) text.now }
{
    text.split_at(digits_before(text))
}
