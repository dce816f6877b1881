//! Comments.

ghost use Rattle.std.specs.Prelude.{◌≡◌, ◌≤◌, length};
ghost use Rattle.osl_valuetext.specs.declared.place.Place.TheVariants.{Open};
ghost use Rattle.osl_valuetext.specs.Scan.{piece_end};
ghost use Rattle.osl_lines.specs.Comment.{begins_comment, uncommented};

use osl_valuetext::Place;

/// Where `#` begins a comment, which goes up to the line's end.
#[derive(Clone, Copy, Debug, PartialEq, Eq)]
pub enum Comments {
    /// At the beginning of a line's first word.
    WholeLines,
    /// Anywhere outside strings.
    Anywhere,
}

/// How many bytes are before the comment.
fn comment_place(line: &[u8]) -> usize
    ensures value { result ≡ piece_end begins_comment Open 0 line.now }
    ensures within { result ≤ length line.now }
{
    let mut place = Place::Open;
    for (at, byte) in line.iter().enumerate() {
        if place.is_open() && *byte == b'#' {
            return at;
        }
        place = place.next(*byte);
    }
    line.len()
}

/// A line without its comment, which begins at the first `#` outside strings.
#[tactic(auto, unfolding(crate::specs::Comment::uncommented))]
pub fn uncommented(line: &[u8]) -> &[u8]
    ensures { result.now ≡ uncommented line.now }
{
    &line[..comment_place(line)]
}
