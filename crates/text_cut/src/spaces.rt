// Spaces at the ends.
ghost use Rattle.std.specs.Prelude.{◌≡◌, ◌+◌, ◌-◌, ◌<◌, ◌≤◌, ◌==◌, length, take, drop};
ghost use Rattle.std.specs.List.{prefix_len, suffix_len};
ghost use Rattle.text_cut.specs.Spaces.{is_space, without_first as without_first_of, without_last as without_last_of, trimmed as trimmed_of};

// Without the spaces at its front.
fn without_first(text: &[u8]) -> &[u8]
    ensures { result.now ≡ without_first_of text.now }
{
    let mut rest = text;
    while let [b' ', behind @ ..] = rest {
        rest = behind;
    }
    rest
}

// Without the spaces at its end.
fn without_last(text: &[u8]) -> &[u8]
    ensures { result.now ≡ without_last_of text.now }
{
    let mut end = text.len();
    while 0 < end && text[end - 1] == b' ' {
        end -= 1;
    }
    &text[..end]
}

/// The text without the spaces at both ends. Other blanks, as tabs, stay.
#[tactic(auto, unfolding(crate::specs::Spaces::trimmed))]
pub fn trimmed(text: &[u8]) -> &[u8]
    ensures { result.now ≡ trimmed_of text.now }
{
    without_last(without_first(text))
}
