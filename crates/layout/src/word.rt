// Words, compared whole, and tables of words.
ghost use Rattle.std.specs.Prelude.{◌≡◌, ◌≤◌, length};
ghost use Rattle.layout.specs.Word.{same};
ghost use Rattle.layout.specs.Steps.Stands.{stands_at};
ghost use Rattle.layout.specs.Steps.Table.{named};

// Whether a field is a word.
#[tactic(auto, using(crate::proofs::WordLaws::same_is_pointwise))]
pub fn is_word(field: &[u8], word: &[u8]) -> bool
    ensures { result ≡ same field.now word.now }
{
    field == word
}

// Whether a word stands at a place of a text.
#[tactic(auto, using(crate::proofs::StandsLaws::word_begins))]
pub fn stands_at(s: &[u8], from: usize, word: &[u8]) -> bool
    requires { from ≤ length s.now }
    ensures { result ≡ stands_at word.now from s.now }
{
    s[from..].starts_with(word)
}

// What a table has beside the word that a field is.
pub fn named<T: Copy>(field: &[u8], table: &[(&[u8], T)]) -> Option<T>
    ensures { result ≡ named field.now table.now }
{
    table
        .iter()
        .find(|(word, _)| is_word(field, word))
        .map(|(_, meaning)| *meaning)
}
