// Words that name files.
ghost use Rattle.std.specs.Prelude.{◌↔◌, IsTrue};
ghost use Rattle.polis_words.specs.FileWords.{IsFileWord};

use polis_base::limits::FILE_NAME_MAX;

/// Whether a word may be a file's name.
pub fn is_file_word(word: &str) -> bool
    ensures { IsTrue result ↔ IsFileWord word.now }
{
    1 <= word.len() && word.len() as u64 <= FILE_NAME_MAX
}
