//! Names among labels.

ghost use Rattle.std.specs.Prelude.{◌≡◌, ◌<◌, IfSome, length};
ghost use Rattle.std.specs.List.{position};
ghost use Rattle.std.specs.Str.{bytes_eq};

use sl_law_meaning::Label;

// The number of the first label that is this name.
pub(crate) fn number_among(labels: &[Label], name: &[u8]) -> Option<usize>
    ensures number { result ≡ position (bytes_eq name.now) labels.now }
    ensures within { IfSome result (λ number. number < length labels.now) }
{
    labels.iter().position(|label| name == label.as_bytes())
}
