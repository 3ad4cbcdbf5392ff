//! The words of a command line.
ghost use Rattle.std.specs.Prelude.{◌≡◌, ◌≤◌, length};
ghost use Rattle.std.specs.List.{position_or_len};
ghost use Rattle.program.specs.Words.{is};
ghost use Rattle.cidr_merge.specs.Sides.{before_dashes, behind_dashes};

use program::command_line::is;

/// Returns the index of the first word equal to this text, or the number of words if there is none.
pub(crate) fn place_of(words: &[String], text: &str) -> usize
    ensures within { result ≤ length words.now }
    ensures place { result ≡ position_or_len (is text.now) words.now }
{
    let mut place = 0;
    while place < words.len() && !is(&words[place], text) {
        place += 1;
    }
    place
}

/// Returns the words before the first `--`.
pub(crate) fn before_dashes(words: &[String]) -> &[String]
    ensures { result.now ≡ before_dashes words.now }
{
    &words[..place_of(words, "--")]
}

/// Returns the words after the first `--`.
pub(crate) fn behind_dashes(words: &[String]) -> &[String]
    ensures { result.now ≡ behind_dashes words.now }
{
    let place = place_of(words, "--");
    if place < words.len() {
        &words[place + 1..]
    } else {
        &words[place..]
    }
}
