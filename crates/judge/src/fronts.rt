// The line that stands at the front of a board's lines.
ghost use Rattle.std.specs.Prelude.{◌≡◌, ◌≤◌, length, IfSome};
ghost use Rattle.judge.specs.NextLine.{line_size};

// How many bytes it has, its line feed included; none where there is no line feed.
#[tactic(auto, unfolding(crate::specs::NextLine::line_size))]
pub(crate) fn line_size(lines: &[u8]) -> Option<usize>
    ensures size { result ≡ line_size lines.now }
    ensures within { IfSome result (λ size. size ≤ length lines.now) }
{
    let feed = lines.iter().position(|byte| *byte == b'\n')?;
    Some(feed + 1)
}
